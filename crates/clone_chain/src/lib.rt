// The chain of a clone request, in which two notify types more are known.
#![tactic(auto)]

pub mod read;
