// Addresses and address pairs: families, sixteen octets each, ports.
#![tactic(auto)]

pub mod address;
pub mod pair;
