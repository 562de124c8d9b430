// What is given to open; and what more than one table call asks: whose a record is, and whether list and SPI fit.
ghost use Rattle.std.specs.Prelude.{◌≡◌};
ghost use Rattle.tables.specs.Changes.{is_own, bad_list};

use address::pair::Pair;
use octets::limits::{IKE_PLACES, IPSEC_PLACES};
use records::ike::{Agreed, IkeRecord};

// What is given to open an IKE record and its first IPsec record, whose SPI is `child`.
#[repr(C)]
#[derive(Clone, Copy)]
pub struct Opening {
    pub spi: u64,
    pub agreed: Agreed,
    pub pair: Pair,
    pub child: u32,
}

// Whether what was found at a place is the operator's.
pub fn is_own(place: usize, entry: IkeRecord, operator: u8) -> bool
    ensures { result ≡ is_own place entry operator }
{
    place < IKE_PLACES && entry.agreed.operator == operator
}

// Whether the list has another size than it must, or an SPI is 0.
pub fn is_bad_list(size: usize, spi: u64) -> bool
    ensures { result ≡ bad_list size spi }
{
    size != IPSEC_PLACES || spi == 0
}
