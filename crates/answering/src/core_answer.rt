// One request by the marks of the record that it means and by what was read in it: decide, respond.
ghost use Rattle.std.specs.Prelude.{◌≡◌, ◌≤◌, length};
ghost use Rattle.octets.specs.Limits.{body_most, response_room};
ghost use Rattle.writing.specs.Notify.{placed, chained};
ghost use Rattle.reader.specs.Chain.{reading};
ghost use Rattle.responding.specs.Put.{Responds, NatsSized};
ghost use Rattle.responding.specs.Respond.{told_of};
ghost use Rattle.replying.specs.Reply.{error_reply};
ghost use Rattle.answering.specs.Core.{chain_error, core_answer, core_response};
ghost use Rattle.answering.specs.Request.{asked_by};

use crate::request::LentRequest;
use deciding::decide::decide;
use notify::notify::NotifyType;
use octets::number::Number;
use reader::read::Reading;
use records::ike::Marks;
use replying::reply::{CoreAnswer, Reply};
use responding::respond::{Response, put_error, respond_decided, wants_nats};
use values::cookie;

// The error for a malformed chain, of any of the numbers 61 to 65, or for an unknown critical payload, and nothing
// else.
#[tactic(auto, unfolding(crate::specs::Core::chain_error))]
pub fn put_chain_error(r: Reading, out: &mut [u8]) -> Response
    requires { response_room ≤ length out.old }
    ensures { Responds (chain_error r) out.old out.new result }
{
    if r.number == u8::from(Number::UnknownCritical) {
        return put_error(
            out,
            NotifyType::UNSUPPORTED_CRITICAL_PAYLOAD,
            &[r.critical],
            &[],
        );
    }
    put_error(out, NotifyType::INVALID_SYNTAX, &[], &[])
}

// A chain that is refused: the error, and what is told of it.
pub fn refuse_chain(r: Reading, out: &mut [u8]) -> Reply
    requires { response_room ≤ length out.old }
    ensures value { result ≡ error_reply r.number r.offset r.ordinal (told_of (chain_error r)) }
    ensures out_after { out.new ≡ placed out.old 0 (chained (chain_error r) 0) }
{
    let response = put_chain_error(r, out);
    Reply::error(r.number, r.offset, r.ordinal, response)
}

// One request that passed checks 1 to 5, by the marks of the record that it means; `accepted` says whether the policy
// accepts its pair.
pub fn respond_to(
    accepted: bool,
    marks: Marks,
    request: &LentRequest,
    read: Reading,
    out: &mut [u8],
) -> CoreAnswer
    requires response_room_in_bounds { response_room ≤ length out.old }
    requires nats_sized { NatsSized request.now.nat_source.now request.now.nat_destination.now }
    requires body_len_bound { let r = request.now in
        (length r.body.now ≤ body_most) × (read ≡ reading r.first r.body.now) }
    ensures { let asks = asked_by request.now in
        (result ≡ core_answer accepted asks marks)
        × (out.new ≡ placed out.old 0 (core_response accepted asks marks)) }
{
    if read.number != u8::from(Number::Done) {
        return CoreAnswer::unchanged(refuse_chain(read, out), marks);
    }
    let seen = read.seen;
    let d = decide(
        accepted,
        request.body,
        seen,
        request.pair,
        request.id,
        marks,
    );
    let response = respond_decided(
        d.verdict,
        wants_nats(seen),
        request.nat_source,
        request.nat_destination,
        cookie(request.body, seen),
        out,
    );
    CoreAnswer::decided(d, seen, response)
}
