// The lent IPsec list: the lowest place with an SPI, and the record at a place.
ghost use Rattle.std.specs.Prelude.{◌≡◌, eqb, get_or, position};
ghost use Rattle.octets.specs.Lists.{place_of};
ghost use Rattle.records.specs.Records.{ipsec_spi, no_ipsec};

use records::ipsec::IpsecRecord;

// The lowest place with this SPI, if any.
fn position_of(records: &[IpsecRecord], spi: u32) -> Option<usize>
    ensures { result ≡ position (λ r. eqb (ipsec_spi r) spi) records.now }
{
    records.iter().position(|r| r.spi == spi)
}

// The lowest place with this SPI, or the list's length where there is none; of SPI 0, the lowest free place.
// (`ike_place` is of another record and another width of SPI: a trait for the two would be longer than both.)
#[tactic(auto, using(octets::proofs::Iterators::position_is))]
pub fn ipsec_place(records: &[IpsecRecord], spi: u32) -> usize
    ensures { result ≡ place_of ipsec_spi spi records.now }
{
    position_of(records, spi).unwrap_or(records.len())
}

// The record at a place; a closed one past the end.
pub fn ipsec_at(records: &[IpsecRecord], place: usize) -> IpsecRecord
    ensures { result ≡ get_or records.now place no_ipsec }
{
    match records.get(place) {
        Some(record) => *record,
        None => IpsecRecord::none(),
    }
}
