// Words of a printed line, each written into a lent buffer with an octet behind it: a space, or the line's end.
#![tactic(auto)]

pub mod chosen;
pub mod hex;
pub mod number;
pub mod word;
