// Operators in the lent tables: whether an SPI means a record of one, and how many IPsec records are one's through their
// owners.
ghost use Rattle.std.specs.Prelude.{◌≡◌};
ghost use Rattle.tables.specs.Calls.{owns, ipsecs_of};

use lent_ike::ike::ike_place;
use octets::limits::IKE_PLACES;
use records::ike::IkeRecord;
use records::ipsec::IpsecRecord;

// Whether the lowest place in use with the SPI is the operator's. 0 means no record.
pub fn ike_owns(records: &[IkeRecord; IKE_PLACES], operator: u8, spi: u64) -> bool
    ensures { result ≡ owns operator spi records.now }
{
    if spi == 0 {
        return false;
    }
    let place = ike_place(records, spi);
    place < IKE_PLACES && records[place].agreed.operator == operator
}

// How many IPsec records in use are the operator's, each through its owner.
pub fn ipsec_count_of(ike: &[IkeRecord; IKE_PLACES], ipsec: &[IpsecRecord], operator: u8) -> usize
    ensures { result ≡ ipsecs_of operator ike.now ipsec.now }
{
    ipsec
        .iter()
        .filter(|r| r.spi != 0 && ike_owns(ike, operator, r.owner))
        .count()
}
