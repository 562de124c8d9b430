// The responder's answer to a request of ours: accepted, refused, or so wrong that the IKE SA is to be closed.
ghost use Rattle.std.specs.Prelude.{◌≡◌, ◌≤◌};
ghost use Rattle.initiator.specs.Response.{outcome_number, closes, error_outcome, outcome_of, tally_of};
ghost use Rattle.initiator.specs.Response.{refusal, AssessedAs};

use asking::fits::cookie_fits;
use findings::seen::Tally;
use notify::notify::{NotifyKind, NotifyType};
use octets::number::Number;
use reader::read::read;
use values::cookie;

// What a response that was read whole comes to, in the words of 01.
#[derive(Clone, Copy, PartialEq, Eq, Debug)]
pub enum Outcome {
    Close,
    NatSeen,
    Unacceptable,
    Failed,
    Accepted,
}

// All that is told of a response; the outcome by its number. The cookie that came back is the part of the body at
// `cookie`.
#[repr(C)]
#[derive(Clone, Copy)]
pub struct Assessment {
    pub number: u8,
    pub outcome: u8,
    pub payloads: u16,
    pub offset: u16,
    pub ordinal: u16,
    pub tally: u32,
    pub cookie: u16,
    pub cookie_len: u16,
}

// What is told for an outcome with a refusal.
pub const NO_OUTCOME: u8 = 0;

// As it is told.
impl From<Outcome> for u8 {
    ghost from_gives = { λ outcome told. told ≡ outcome_number outcome };

    fn from(outcome: Outcome) -> u8 {
        match outcome {
            Outcome::Close => 1,
            Outcome::NatSeen => 2,
            Outcome::Unacceptable => 3,
            Outcome::Failed => 4,
            Outcome::Accepted => 5,
        }
    }
}

// Whether the response doesn't bring back the cookie that was sent.
#[tactic(auto, using(crate::proofs::Same::same_is), unfolding(crate::specs::Response::closes))]
pub fn must_close(sent: &[u8], got: &[u8], errors: u16) -> bool
    ensures { result ≡ closes sent.now got.now errors }
{
    if sent.is_empty() {
        return false;
    }
    if got.is_empty() {
        errors == 0
    } else {
        sent != got
    }
}

// What an error of this notify type is told as.
#[tactic(auto, unfolding(crate::specs::Response::error_outcome))]
pub fn error_outcome(notify_type: u16) -> Outcome
    ensures { result ≡ error_outcome notify_type }
{
    let error = NotifyType {
        number: notify_type,
    };
    match error.kind() {
        NotifyKind::UnexpectedNatDetected => Outcome::NatSeen,
        NotifyKind::UnacceptableAddresses => Outcome::Unacceptable,
        _ => Outcome::Failed,
    }
}

#[tactic(auto, unfolding(crate::specs::Response::outcome_of))]
pub fn outcome_of(sent: &[u8], got: &[u8], t: Tally) -> Outcome
    ensures { result ≡ outcome_of sent.now got.now t }
{
    if must_close(sent, got, t.errors) {
        Outcome::Close
    } else if t.errors == 0 {
        Outcome::Accepted
    } else {
        error_outcome(t.first_error)
    }
}

// What was unknown in the response: errors are known here, and a cookie that wasn't asked for is not.
#[tactic(auto, unfolding(crate::specs::Response::tally_of))]
pub fn tally_of(sent: &[u8], got: &[u8], t: Tally) -> u32
    requires { t.errors ≤ t.unknown_notifies }
    ensures { result ≡ tally_of sent.now got.now t }
{
    let others = t.unknown_notifies - t.errors;
    let unasked = sent.is_empty() && !got.is_empty();
    t.unknown_payloads as u32 + others as u32 + u32::from(unasked)
}

pub fn refuse(number: u8, offset: u16, ordinal: u16) -> Assessment
    ensures { result ≡ refusal number offset ordinal }
{
    Assessment {
        number,
        outcome: NO_OUTCOME,
        payloads: 0,
        offset,
        ordinal,
        tally: 0,
        cookie: 0,
        cookie_len: 0,
    }
}

// Says what a response comes to, given the cookie sent with the request (empty: none).
pub fn assess(sent: &[u8], first: u8, body: &[u8]) -> Assessment
    ensures { AssessedAs sent.now first body.now result }
{
    if !cookie_fits(sent.len()) {
        return refuse(u8::from(Number::BadArgument), 0, 0);
    }
    let r = read(first, body);
    if r.number != 0 {
        return refuse(r.number, r.offset, r.ordinal);
    }
    let tally = r.seen.tally;
    let got = cookie(body, r.seen);
    Assessment {
        number: 0,
        outcome: u8::from(outcome_of(sent, got, tally)),
        payloads: tally.payloads,
        offset: 0,
        ordinal: 0,
        tally: tally_of(sent, got, tally),
        cookie: r.seen.cookie,
        cookie_len: r.seen.cookie_len,
    }
}
