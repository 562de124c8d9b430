// The request writer as a host calls it: a request as ever, or one of the two notifications of a clone, alone.
#![tactic(auto)]

pub mod write;
