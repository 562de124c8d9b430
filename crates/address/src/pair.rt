// Address pairs, as in a packet from the peer: family, source, destination, source port, destination port.
ghost use Rattle.std.specs.Prelude.{◌≡◌};
ghost use Rattle.address.specs.Address.{pair_fits};

use crate::address::both_fit;
use octets::limits::ADDRESS_OCTETS;

#[repr(C)]
#[derive(Clone, Copy, Default, PartialEq, Eq, Debug)]
pub struct Pair {
    pub family: u8,
    pub source: [u8; ADDRESS_OCTETS],
    pub destination: [u8; ADDRESS_OCTETS],
    pub source_port: u16,
    pub destination_port: u16,
}

impl Pair {
    // Whether both addresses are of the pair's family.
    pub fn fits(self) -> bool
        ensures { result ≡ pair_fits self }
    {
        both_fit(self.family, self.source, self.destination)
    }
}
