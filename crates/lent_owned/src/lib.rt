// The IPsec records of an owner in the lent list, moved to its pair.
#![tactic(auto)]

pub mod owned;
