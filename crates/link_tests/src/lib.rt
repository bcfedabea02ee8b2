// Tests of the crates `links` and `slot_lines` on examples: the links, their order and the bounds of lent memory, which
// refusal comes first, and the lines by which slots are listed.
#![tactic(auto)]

#[cfg(test)]
mod lines;
#[cfg(test)]
mod tables;
