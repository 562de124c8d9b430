// Prefixes of addresses, compared by octets and by the bits of the last one.
#![tactic(auto)]

pub mod eights;
pub mod prefix;
