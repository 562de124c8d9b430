// A request of the original initiator as it comes in, and what its handling comes to as a whole.
#![tactic(auto)]

pub mod receive;
