// The files of patterns and maps, command by command: their bytes, their operands, the entries of a pattern's table,
// and what is refused.
#![tactic(auto)]

pub mod bytes;
pub mod command;
pub mod entry;
pub mod fault;
mod operand;
mod words;
