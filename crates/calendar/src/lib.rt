// The calendar: which days there are, how they are counted, and which day a count is.
#![tactic(auto)]

pub mod days;
