// Tokens: what the bytes of a script are read as before any grammar, and what a reader of tokens leans on:
// number literals, dates, lent lists of names, the line and column of a byte.
#![tactic(auto)]

pub mod codes;
pub mod cursor;
pub mod dates;
pub mod kinds;
pub mod lexing;
pub mod lists;
pub mod names;
pub mod numbers;
pub mod places;
pub mod refusals;
pub mod scanning;
pub mod text;
pub mod views;
pub mod words;
