// The entry of a clone request.
#![tactic(auto)]

ghost use Rattle.std.specs.Prelude.{length};
ghost use Rattle.acts.specs.Performed.{Performs, cloned_by};

use calling::clone_in;
use given::outcome::Outcome;
use given::reading::Slots;
use host_clone::unmavreth_clone;
use octets::limits::{IKE_PLACES, OPERATORS};
use policy::rules::Policy;
use records::ike::IkeRecord;
use records::ipsec::IpsecRecord;

// Decides a clone request. Its body is a part of the window.
pub fn clone_entry(
    ike: &mut [IkeRecord; IKE_PLACES],
    ipsec: &mut [IpsecRecord],
    policies: &mut [Policy; OPERATORS],
    window: &[u8],
    e: Slots,
    out: &mut [u8],
) -> Outcome
    ensures { let act = cloned_by window.now e.slots (length out.old) in
        Performs act ike.old ipsec.old policies.old
        result ike.new ipsec.new policies.new }
{
    let q = clone_in(e);
    let body = q.body.of(window);
    let a = unmavreth_clone(ike, q.spi, q.new_spi, q.first, body, out, q.operator);
    Outcome::numbered(a.number)
}
