// The response payloads.
#![tactic(auto)]

pub mod respond;
