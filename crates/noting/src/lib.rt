// A payload of a chain, noted in the numbers of what was seen.
#![tactic(auto)]

pub mod note;
