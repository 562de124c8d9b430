// A clone request by what was looked up for it: checked, read, answered. The table around it is lent to `host_clone`.
#![tactic(auto)]

ghost use Rattle.std.specs.Prelude.{◌≡◌, ◌≢◌, ◌≤◌, length, unwrap_or, IfSome};
ghost use Rattle.octets.specs.Limits.{response_room};
ghost use Rattle.writing.specs.Notify.{placed};
ghost use Rattle.responding.specs.Put.{Responds};
ghost use Rattle.cloning.specs.Clone.{clone_notify, clone_notifies, not_cloned};
ghost use Rattle.cloning.specs.Looked.{request_by, clone_at, octets_at};

use answering::core_answer::put_chain_error;
use clone_chain::read::read_clone;
use clone_checks::{early_checks, late_clone};
use cloning::clone::{CloneAnswer, CloneLooked, CloneReply, LentCloneRequest};
use notify::notify::NotifyType;
use octets::number::Number;
use reader::read::Reading;
use responding::respond::{Response, put_error};

// The notify type that a number writes, of a chain that was read whole, if it writes one.
pub fn clone_notify(number: u8) -> Option<u16>
    ensures value { unwrap_or result 0 ≡ clone_notify number }
    ensures some { IfSome result (λ notify_type. notify_type ≢ 0) }
{
    if number == u8::from(Number::Done) {
        return Some(NotifyType::CLONE_IKE_SA);
    }
    if number == u8::from(Number::CannotCloneNow) {
        return Some(NotifyType::TEMPORARY_FAILURE);
    }
    if number == u8::from(Number::PeerAtLimit) {
        return Some(NotifyType::NO_ADDITIONAL_SAS);
    }
    if number == u8::from(Number::OperatorAtShare) {
        Some(NotifyType::NO_ADDITIONAL_SAS)
    } else {
        None
    }
}

// The response to a clone request whose chain was read, by its number.
#[tactic(auto, using(writing::proofs::Placed::placed_none), unfolding(cloning::specs::Clone::clone_notifies, writing::specs::Notify::chained))]
pub fn respond_clone(number: u8, r: Reading, out: &mut [u8]) -> Response
    requires { response_room ≤ length out.old }
    ensures { Responds (clone_notifies number r) out.old out.new result }
{
    if r.number != 0 {
        return put_chain_error(r, out);
    }
    match clone_notify(number) {
        Some(notify_type) => put_error(out, notify_type, &[], &[]),
        None => Response::default(),
    }
}

// What is told of a request that is refused before its chain is read.
pub fn not_cloned(number: u8) -> CloneReply
    ensures { result ≡ not_cloned number }
{
    CloneReply {
        number,
        ..CloneReply::default()
    }
}

// A clone request by what was looked up. The response goes to the start of `out`.
#[tactic(auto, using(writing::proofs::Placed::placed_none), unfolding(cloning::specs::Looked::clone_at, cloning::specs::Looked::octets_at, cloning::specs::Clone::clone_told))]
pub fn clone_at(looked: &CloneLooked, request: &LentCloneRequest, out: &mut [u8]) -> CloneAnswer
    ensures { let q = request_by request.now (length out.old) in
        (result ≡ clone_at looked.now q) × (out.new ≡ placed out.old 0 (octets_at looked.now q)) }
{
    if let Err(number) = early_checks(looked, request, out.len()) {
        return CloneAnswer {
            reply: not_cloned(u8::from(number)),
            clone: None,
        };
    }
    let read = read_clone(request.first, request.body);
    let reading = read.reading;
    let number = late_clone(read, looked);
    let response = respond_clone(number, reading, out);
    let reply = CloneReply {
        number,
        first: response.first,
        payloads: reading.seen.tally.payloads,
        offset: reading.offset,
        ordinal: reading.ordinal,
        length: response.length,
    };
    let clone = if number == 0 {
        Some(looked.entry.cloned(request.new_spi))
    } else {
        None
    };
    CloneAnswer { reply, clone }
}
