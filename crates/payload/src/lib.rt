// One payload of a chain: what stands at an offset of a body, or what is wrong with it.
#![tactic(auto)]

pub mod payload;
