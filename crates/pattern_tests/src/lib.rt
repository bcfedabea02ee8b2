// Tests of the crates `format` and `pattern` on examples: the answers, their order where two refusals fit, and what the
// caller's table holds afterwards. The many files of crates/inspect_cases go through the same calls.
#![tactic(auto)]

#[cfg(test)]
mod commands;
#[cfg(test)]
mod patterns;
#[cfg(test)]
mod refusals;
#[cfg(test)]
mod tables;
