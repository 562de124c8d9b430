// Prefixes of addresses: whole octets, then the bits of the octet that the prefix ends in.
ghost use Rattle.std.specs.Prelude.{◌≡◌, true, ◌*◌, ◌/◌, ◌≤◌};
ghost use Rattle.octets.specs.Limits.{address_octets};
ghost use Rattle.prefix.specs.Prefix.{address_bits, bits_of, prefix_matches};

use crate::eights::eight_at;
use octets::limits::ADDRESS_OCTETS;

// Whether the first n octets are those of the prefix, one after the other: they are fewer than eight, for which `==` of
// slices, a call of memcmp, takes more instructions.
fn each_matches(prefix: [u8; ADDRESS_OCTETS], n: usize, octets: [u8; ADDRESS_OCTETS]) -> bool
    requires { n ≤ address_octets }
    ensures { result ≡ prefix_matches prefix (bits_of n) octets }
{
    for i in 0..n {
        if prefix[i] != octets[i] {
            return false;
        }
    }
    true
}

// The same; eight octets and more by their first eight and their last eight.
fn octets_match(prefix: [u8; ADDRESS_OCTETS], n: usize, octets: [u8; ADDRESS_OCTETS]) -> bool
    requires { n ≤ address_octets }
    ensures { result ≡ prefix_matches prefix (bits_of n) octets }
{
    if n < 8 {
        return each_matches(prefix, n, octets);
    }
    eight_at(prefix, 0) == eight_at(octets, 0) && eight_at(prefix, n - 8) == eight_at(octets, n - 8)
}

// Whether the first n bits are those of the prefix, where those of the whole octets are: the octet that the prefix
// ends in without its lower bits.
fn end_matches(prefix: [u8; ADDRESS_OCTETS], n: u8, octets: [u8; ADDRESS_OCTETS]) -> bool
    requires { (n ≤ address_bits) × (prefix_matches prefix (bits_of (n / 8)) octets ≡ true) }
    ensures { result ≡ prefix_matches prefix n octets }
{
    let bits = n % 8;
    if bits == 0 {
        return true;
    }
    let at = (n / 8) as usize;
    let shift = 8 - bits;
    prefix[at] >> shift == octets[at] >> shift
}

// Whether the first n bits are those of the prefix.
pub fn prefix_matches(prefix: [u8; ADDRESS_OCTETS], n: u8, octets: [u8; ADDRESS_OCTETS]) -> bool
    requires { n ≤ address_bits }
    ensures { result ≡ prefix_matches prefix n octets }
{
    octets_match(prefix, (n / 8) as usize, octets) && end_matches(prefix, n, octets)
}
