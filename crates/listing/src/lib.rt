// A pattern listed as text, and a refusal told in words.
#![tactic(auto)]

pub mod fault;
pub mod list;
