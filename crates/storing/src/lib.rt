// A finding, stored in the numbers of what was seen.
#![tactic(auto)]

pub mod store;
