// What a pattern means, and its links.
#![tactic(auto)]

pub mod fault;
pub mod link;
mod number;
mod part;
pub mod row;
pub mod theorems;
