// Lines of the replay program as octets in a lent buffer.
#![tactic(auto)]

pub mod lines;
