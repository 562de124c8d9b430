// The payload chain of a decrypted message: any first type and any octets are read to an end.
#![tactic(auto)]

pub mod read;
