// A request of a peer handled, for C.
ghost use Rattle.std.specs.Prelude.{length};
ghost use Rattle.records.specs.Pending.{check_of};
ghost use Rattle.answering.specs.Core.{asked};
ghost use Rattle.checking.specs.Checks.{request_of};
ghost use Rattle.responder.specs.Handle.{HandledAs};

use address::pair::Pair;
use octets::limits::{IKE_PLACES, OPERATORS};
use policy::rules::Policy;
use records::ike::IkeRecord;
use records::ipsec::IpsecRecord;
use replying::reply::Reply;

// Handles one INFORMATIONAL request of a peer that is the original initiator: the response goes to the start of `out`,
// and what is past it stays as it was. `cookie` and `check_id` are those of the return routability check that the host
// would send next: where an update is applied, the record keeps them as its pending check.
#[unsafe(no_mangle)]
pub extern "C" fn unmavreth_handle(
    ike: &mut [IkeRecord; IKE_PLACES],
    ipsec: &[IpsecRecord],
    policies: &[Policy; OPERATORS],
    spi: u64,
    id: u32,
    pair: Pair,
    nat_source: &[u8],
    nat_destination: &[u8],
    cookie: &[u8],
    check_id: u32,
    first: u8,
    body: &[u8],
    out: &mut [u8],
    operator: u8,
) -> Reply
    ensures { let nat-source = nat_source.now in
        let nat-destination = nat_destination.now in
        let check = check_of cookie.now check_id in
        let asks = asked id pair nat-source nat-destination first body.now check in
        let q = request_of spi asks (length out.old) operator in
        HandledAs policies.now ike.old ipsec.now q out.old
        result ike.new out.new }
{
    host_request::unmavreth_handle(
        ike,
        ipsec,
        policies,
        spi,
        id,
        pair,
        nat_source,
        nat_destination,
        cookie,
        check_id,
        first,
        body,
        out,
        operator,
    )
}
