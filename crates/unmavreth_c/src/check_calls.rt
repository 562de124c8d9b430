// The response to a return routability check, for C.
ghost use Rattle.routability.specs.Routability.{check_response, CheckedAs};

use initiator::response::Assessment;
use octets::limits::IKE_PLACES;
use records::ike::IkeRecord;
use records::ipsec::IpsecRecord;

// Decides the response to the check that an IKE record has pending. Accepted, it moves the record's IPsec records to
// the pair that the record has now; a close closes the record and what it owns; an error moves nothing. Each ends the
// check. A refusal ends nothing, and changes nothing.
#[unsafe(no_mangle)]
pub extern "C" fn unmavreth_check(
    ike: &mut [IkeRecord; IKE_PLACES],
    ipsec: &mut [IpsecRecord],
    spi: u64,
    id: u32,
    first: u8,
    body: &[u8],
    operator: u8,
) -> Assessment
    ensures { let q = check_response spi id first body.now operator in
        CheckedAs ike.old ipsec.old q result ike.new ipsec.new }
{
    host_check::unmavreth_check(ike, ipsec, spi, id, first, body, operator)
}
