// The two calls that read and write one entry of a trace, for any input.
#![tactic(auto)]

pub mod read;
pub mod write;
