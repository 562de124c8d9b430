// Octets and big-endian numbers: what every layer above reads and writes with.
#![tactic(auto)]

pub mod flag;
pub mod limits;
pub mod number;
pub mod operator;
pub mod wire;

ghost use Rattle.std.specs.Prelude.{◌≡◌, ◌+◌, ◌≤◌, length};
ghost use Rattle.octets.specs.Octets.{be16, padded};

use crate::limits::ADDRESS_OCTETS;

// The 16-bit number at `at`, high octet first.
pub fn be16_at(octets: &[u8], at: usize) -> u16
    requires { at + 2 ≤ length octets.now }
    ensures { result ≡ be16 octets.now at }
{
    u16::from_be_bytes([octets[at], octets[at + 1]])
}

// An address as it travels: the octets given, zeros after them, sixteen in all. IPv4 or IPv6 is only a
// matter of how many are given.
pub fn padded_to_16(octets: &[u8]) -> [u8; ADDRESS_OCTETS]
    ensures { result ≡ padded octets.now }
{
    let mut out = [0u8; ADDRESS_OCTETS];
    let n = octets.len().min(ADDRESS_OCTETS);
    out[..n].copy_from_slice(&octets[..n]);
    out
}
