// Patterns as wholes: reading a file into the caller's table, judging a table, and the positions that are named.
#![tactic(auto)]

pub mod judge;
pub mod position;
mod positions;
pub mod read;
pub mod table;
mod words;
