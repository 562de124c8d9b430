// The initiator's end: what a response comes to.
#![tactic(auto)]

pub mod response;
