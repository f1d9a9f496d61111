// Reading: tokens as trees, trees as records.
#![tactic(auto)]

mod answers;
mod assignments;
mod atoms;
mod bodies;
mod calling;
mod calls;
pub mod editions;
mod expressions;
pub mod judging;
mod language;
mod latest;
pub mod parts;
mod powers;
pub mod reading;
mod records;
pub mod rooms;
mod scripts;
mod signs;
mod statements;
