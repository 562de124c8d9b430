// The parts of a request, put into an output.
#![tactic(auto)]

pub mod put;
