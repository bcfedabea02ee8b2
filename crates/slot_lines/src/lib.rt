// The slots of a pattern and their links as text, which a listing of the pattern is to end with: `slots` adds the lines
// to a text, and `words` has what is named in them.
#![tactic(auto)]

pub mod slots;
mod words;
