// The call that handles a request, on lent tables: what it goes by is looked up, the request received by that, the
// operator's lent policy asked where its word counts, and the request answered; what changes in the record is stored.
// What the record owns follows only after the check that is kept then: see `unmavreth_check`.
#![tactic(auto)]

ghost use Rattle.std.specs.Prelude.{length};
ghost use Rattle.records.specs.Pending.{check_of};
ghost use Rattle.answering.specs.Core.{asked};
ghost use Rattle.checking.specs.Checks.{request_of};
ghost use Rattle.responder.specs.Handle.{HandledAs};

use address::pair::Pair;
use answering::core_answer::respond_to;
use answering::request::LentRequest;
use checking::lookup::Looked;
use lent_ike::ike::{ike_at, ike_change, ike_place};
use lent_policy::rules::accepts_if;
use octets::limits::{IKE_PLACES, OPERATORS};
use policy::rules::Policy;
use records::check::PendingCheck;
use records::ike::IkeRecord;
use records::ipsec::IpsecRecord;
use replying::reply::Reply;
use responder::receive::received_at;

// Handles one INFORMATIONAL request of a peer that is the original initiator: the response goes to the start of `out`,
// and what is past it stays as it was. `cookie` and `check_id` are those of the return routability check that the host
// would send next: where an update is applied, the record keeps them as its pending check.
pub fn unmavreth_handle(
    ike: &mut [IkeRecord; IKE_PLACES],
    ipsec: &[IpsecRecord],
    policies: &[Policy; OPERATORS],
    spi: u64,
    id: u32,
    pair: Pair,
    nat_source: &[u8],
    nat_destination: &[u8],
    cookie: &[u8],
    check_id: u32,
    first: u8,
    body: &[u8],
    out: &mut [u8],
    operator: u8,
) -> Reply
    ensures { let nat-source = nat_source.now in
        let nat-destination = nat_destination.now in
        let check = check_of cookie.now check_id in
        let asks = asked id pair nat-source nat-destination first body.now check in
        let q = request_of spi asks (length out.old) operator in
        HandledAs policies.now ike.old ipsec.now q out.old
        result ike.new out.new }
{
    let request = LentRequest {
        spi,
        id,
        pair,
        nat_source,
        nat_destination,
        first,
        body,
        check: PendingCheck::of(cookie, check_id),
        operator,
    };
    let place = ike_place(ike, spi);
    let looked = Looked::new(ipsec.len(), place, ike_at(ike, place));
    let received = match received_at(looked, &request, out.len()) {
        Ok(received) => received,
        Err(number) => return Reply::refusal(number),
    };
    let accepted = accepts_if(policies, operator as usize, received.asks, pair);
    let answer = respond_to(accepted, looked.marks, &request, received.read, out);
    ike_change(ike, place, answer, pair, request.check, body);
    answer.reply
}
