// The call that takes the response to a return routability check of ours, on lent tables (RFC 4555, 3.7).
#![tactic(auto)]

ghost use Rattle.routability.specs.Routability.{check_response, CheckedAs};

use initiator::response::Assessment;
use lent_closed::ended::end_owned;
use lent_ike::ike::{ike_at, ike_place};
use octets::limits::IKE_PLACES;
use records::ike::IkeRecord;
use records::ipsec::IpsecRecord;
use routability::response::{CheckLooked, LentResponse, end_check};
use walks::store;

// Decides the response to the check that an IKE record has pending. Accepted, it moves the record's IPsec records to
// the pair that the record has now; a close closes the record and what it owns; an error moves nothing. Each ends the
// check. A refusal ends nothing, and changes nothing.
pub fn unmavreth_check(
    ike: &mut [IkeRecord; IKE_PLACES],
    ipsec: &mut [IpsecRecord],
    spi: u64,
    id: u32,
    first: u8,
    body: &[u8],
    operator: u8,
) -> Assessment
    ensures { let q = check_response spi id first body.now operator in
        CheckedAs ike.old ipsec.old q result ike.new ipsec.new }
{
    let response = LentResponse {
        spi,
        id,
        first,
        body,
        operator,
    };
    let place = ike_place(ike, spi);
    let looked = CheckLooked {
        size: ipsec.len(),
        place,
        entry: ike_at(ike, place),
    };
    let ending = end_check(&looked, &response);
    if let Some(entry) = ending.entry {
        store(ike, place, entry);
    }
    end_owned(ipsec, ending.closes, ending.moves, spi, looked.entry.pair);
    ending.told
}
