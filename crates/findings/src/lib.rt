// What a chain's payloads say, gathered one by one.
#![tactic(auto)]

pub mod seen;
