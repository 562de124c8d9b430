// The response to a return routability check: what it comes to, and what it changes.
#![tactic(auto)]

pub mod response;
