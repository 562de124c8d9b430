// What the calls that open and close records share.
#![tactic(auto)]

pub mod calls;
