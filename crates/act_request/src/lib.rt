// The entry of a request.
#![tactic(auto)]

ghost use Rattle.std.specs.Prelude.{length};
ghost use Rattle.acts.specs.Performed.{Performs, handled_by};

use calling::request_in;
use given::outcome::Outcome;
use given::reading::Slots;
use host_request::unmavreth_handle;
use octets::limits::{IKE_PLACES, OPERATORS};
use policy::rules::Policy;
use records::ike::IkeRecord;
use records::ipsec::IpsecRecord;

// Handles a request. The strings that it gives are parts of the window.
pub fn request_entry(
    ike: &mut [IkeRecord; IKE_PLACES],
    ipsec: &mut [IpsecRecord],
    policies: &mut [Policy; OPERATORS],
    window: &[u8],
    e: Slots,
    out: &mut [u8],
) -> Outcome
    ensures { let act = handled_by window.now e.slots (length out.old) in
        Performs act ike.old ipsec.old policies.old
        result ike.new ipsec.new policies.new }
{
    let q = request_in(window, e);
    let reply = unmavreth_handle(
        ike,
        ipsec,
        policies,
        q.spi,
        q.id,
        q.pair,
        q.nat_source.of(window),
        q.nat_destination.of(window),
        q.cookie.of(window),
        q.check_id,
        q.first,
        q.body.of(window),
        out,
        q.operator,
    );
    Outcome::from(reply)
}
