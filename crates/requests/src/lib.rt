// The request writer: the notifications that an initiator asks for, as a payload chain.
#![tactic(auto)]

pub mod request;
