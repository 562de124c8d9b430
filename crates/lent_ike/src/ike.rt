// The lent IKE table: the lowest place with an SPI, how many records an operator and a peer have, and the record at a
// place, read and changed by an answer.
ghost use Rattle.std.specs.Prelude.{◌≡◌, eqb, get_or, position, set};
ghost use Rattle.octets.specs.Lists.{place_of, how_many};
ghost use Rattle.records.specs.Records.{ike_spi, no_ike, of_operator, of_peer};
ghost use Rattle.replying.specs.Change.{changed_by};

use address::pair::Pair;
use octets::limits::IKE_PLACES;
use records::check::PendingCheck;
use records::ike::IkeRecord;
use replying::change::changed;
use replying::reply::CoreAnswer;

// The lowest place with this SPI, if any.
fn position_of(records: &[IkeRecord; IKE_PLACES], spi: u64) -> Option<usize>
    ensures { result ≡ position (λ r. eqb (ike_spi r) spi) records.now }
{
    records.iter().position(|r| r.spi == spi)
}

// The lowest place with this SPI, or the table's length where there is none; of SPI 0, the lowest free place.
// (A number, since `place_of` of every theorem on the tables is one; `position_of` is the search itself.)
pub fn ike_place(records: &[IkeRecord; IKE_PLACES], spi: u64) -> usize
    ensures { result ≡ place_of ike_spi spi records.now }
{
    position_of(records, spi).unwrap_or(IKE_PLACES)
}

// How many records in use the operator has, being deleted or not.
pub fn ike_count(records: &[IkeRecord; IKE_PLACES], operator: u8) -> usize
    ensures { result ≡ how_many (of_operator operator) records.now }
{
    records
        .iter()
        .filter(|r| r.is_of_operator(operator))
        .count()
}

// How many of them have the peer number.
pub fn ike_peers(records: &[IkeRecord; IKE_PLACES], operator: u8, peer: u32) -> usize
    ensures { result ≡ how_many (of_peer operator peer) records.now }
{
    records
        .iter()
        .filter(|r| r.is_of_peer(operator, peer))
        .count()
}

// The record at a place; a closed one past the end.
pub fn ike_at(records: &[IkeRecord; IKE_PLACES], place: usize) -> IkeRecord
    ensures { result ≡ get_or records.now place no_ike }
{
    match records.get(place) {
        Some(record) => *record,
        None => IkeRecord::none(),
    }
}

// Changes the record at a place by an answer, in place; nothing past the end.
pub fn ike_change(
    records: &mut [IkeRecord; IKE_PLACES],
    place: usize,
    answer: CoreAnswer,
    pair: Pair,
    check: PendingCheck,
    body: &[u8],
)
    ensures { let old = get_or records.old place no_ike in
        records.new ≡ set records.old place (changed_by answer pair check body.now old) }
{
    if place < IKE_PLACES {
        let x = records[place];
        records[place] = changed(x, answer, pair, check, body);
    }
}
