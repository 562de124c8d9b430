// The entry of a response to a return routability check.
#![tactic(auto)]

ghost use Rattle.acts.specs.Performed.{Performs, checked_by};

use calling::response_in;
use given::outcome::Outcome;
use given::reading::Slots;
use host_check::unmavreth_check;
use octets::limits::{IKE_PLACES, OPERATORS};
use policy::rules::Policy;
use records::ike::IkeRecord;
use records::ipsec::IpsecRecord;

// Decides the response to a check. Its body is a part of the window.
pub fn check_entry(
    ike: &mut [IkeRecord; IKE_PLACES],
    ipsec: &mut [IpsecRecord],
    policies: &mut [Policy; OPERATORS],
    window: &[u8],
    e: Slots,
) -> Outcome
    ensures { let act = checked_by window.now e.slots in
        Performs act ike.old ipsec.old policies.old
        result ike.new ipsec.new policies.new }
{
    let q = response_in(e);
    let body = q.body.of(window);
    let a = unmavreth_check(ike, ipsec, q.spi, q.id, q.first, body, q.operator);
    Outcome::numbered(a.number)
}
