// Amending: one statement of a script that was read is replaced.
#![tactic(auto)]

pub mod amending;
mod grounds;
pub mod held;
pub mod memory;
mod moves;
mod orders;
mod rooms;
mod rows;
mod shifts;
