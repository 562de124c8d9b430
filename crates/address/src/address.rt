// Addresses: a family and sixteen octets.
ghost use Rattle.std.specs.Prelude.{◌≡◌, ◌≤◌};
ghost use Rattle.octets.specs.Limits.{addresses_most};
ghost use Rattle.octets.specs.Lists.{all};
ghost use Rattle.address.specs.Address.{width_of, addresses_of, is_zero};
ghost use Rattle.address.specs.Address.{address_fits, both_fit};

use octets::limits::{ADDRESS_OCTETS, ADDRESSES_MOST, IP4_OCTETS, IP6_OCTETS};

#[repr(C)]
#[derive(Clone, Copy, Default, PartialEq, Eq, Debug)]
pub struct Address {
    pub family: u8,
    pub octets: [u8; ADDRESS_OCTETS],
}

impl Address {
    // Whether its octets are an address of its family.
    pub fn fits(self) -> bool
        ensures { result ≡ address_fits self.family self.octets }
    {
        address_fits(self.family, self.octets)
    }
}

// How many octets an address of this family has; a family that is not known has none.
pub fn width_of(family: u8) -> u16
    ensures { result ≡ width_of family }
{
    match family {
        4 => IP4_OCTETS as u16,
        6 => IP6_OCTETS as u16,
        _ => 0,
    }
}

// The list as it is stored: each of the first n addresses with its family, and nothing in the places after them.
pub fn addresses_of(
    families: [u8; ADDRESSES_MOST],
    octets: [[u8; ADDRESS_OCTETS]; ADDRESSES_MOST],
    n: usize,
) -> [Address; ADDRESSES_MOST]
    requires { n ≤ addresses_most }
    ensures { result ≡ addresses_of n families octets }
{
    let mut out = [Address::default(); ADDRESSES_MOST];
    for i in 0..n {
        out[i] = Address {
            family: families[i],
            octets: octets[i],
        };
    }
    out
}

// Whether octets are all zero.
fn all_zero(octets: &[u8]) -> bool
    ensures { result ≡ all is_zero octets.now }
{
    octets.iter().all(|octet| *octet == 0)
}

// Whether sixteen octets are an address of a family.
pub fn address_fits(family: u8, octets: [u8; ADDRESS_OCTETS]) -> bool
    ensures { result ≡ address_fits family octets }
{
    let width = width_of(family) as usize;
    width != 0 && all_zero(&octets[width..])
}

// Whether two addresses are of one family.
pub fn both_fit(family: u8, source: [u8; ADDRESS_OCTETS], destination: [u8; ADDRESS_OCTETS]) -> bool
    ensures { result ≡ both_fit family source destination }
{
    address_fits(family, source) && address_fits(family, destination)
}
