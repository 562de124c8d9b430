// The request writer as a host calls it: where one of the two notifications of a clone is asked for it stands alone,
// and else the request is written as ever.
ghost use Rattle.std.specs.Prelude.{◌≡◌, ◌≢◌, ◌≤◌, length, Ok, IfErr};
ghost use Rattle.octets.specs.Limits.{request_room};
ghost use Rattle.octets.specs.Numbers.{number_of};
ghost use Rattle.writing.specs.Notify.{placed};
ghost use Rattle.asking.specs.Wanted.{draft_of};
ghost use Rattle.requests.specs.Told.{told_as};
ghost use Rattle.clone_requests.specs.WrittenAny.{asks_clone, one_clone, nothing_else, clone_alone, clone_type};
ghost use Rattle.clone_requests.specs.WrittenAny.{asked_octets, clone_complete, WrittenAnyAs};

use asking::ask::{Ask, CloneAsk, Wanted};
use notify::notify::NotifyType;
use octets::limits::REQUEST_ROOM;
use octets::number::Number;
use octets::wire::NOTIFY_PAYLOAD;
use requests::request::Chain;
use writing::put_notify;

pub fn asks_clone(asked: CloneAsk) -> bool
    ensures { result ≡ asks_clone asked }
{
    asked.supported || asked.clone
}

// Whether one of the two is asked for and not the other.
pub fn one_clone(asked: CloneAsk) -> bool
    ensures { result ≡ one_clone asked }
{
    asked.supported != asked.clone
}

// Whether a request asks for nothing of its own; a cookie is asked for by its length.
pub fn nothing_else(ask: Ask, cookie_length: usize) -> bool
    ensures { result ≡ nothing_else ask cookie_length }
{
    !ask.update
        && !ask.no_nats
        && !ask.nat_source
        && !ask.nat_destination
        && !ask.no_additional
        && ask.count == 0
        && cookie_length == 0
}

// Whether one of the two is asked for, and nothing beside it.
pub fn clone_alone(asked: CloneAsk, ask: Ask, cookie_length: usize) -> bool
    ensures { result ≡ clone_alone asked ask cookie_length }
{
    one_clone(asked) && nothing_else(ask, cookie_length)
}

pub fn clone_type(asked: CloneAsk) -> u16
    ensures { result ≡ clone_type asked }
{
    if asked.supported {
        NotifyType::CLONE_IKE_SA_SUPPORTED
    } else {
        NotifyType::CLONE_IKE_SA
    }
}

// Writes the one notification to the start of `out`.
pub fn put_clone(asked: CloneAsk, out: &mut [u8]) -> Chain
    requires { request_room ≤ length out.old }
    ensures { (told_as (Ok result) ≡ clone_complete asked) × (out.new ≡ placed out.old 0 (asked_octets asked)) }
{
    let end = put_notify(out, 0, 0, clone_type(asked), &[]);
    Chain {
        first: NOTIFY_PAYLOAD,
        length: end as u16,
    }
}

// Writes what is asked for to the start of `out`, and leaves the octets past it as they are. No refusal is told as done.
pub fn write_any(asked: CloneAsk, wanted: Wanted<'_>, out: &mut [u8]) -> Result<Chain, Number>
    ensures value { WrittenAnyAs asked (draft_of wanted.entry) out.old (told_as result) out.new }
    ensures refused { IfErr result (λ number. number_of number ≢ 0) }
{
    if !asks_clone(asked) {
        return requests::request::write(wanted, out);
    }
    if !clone_alone(asked, wanted.ask, wanted.cookie.len()) {
        return Err(Number::BadArgument);
    }
    if out.len() < REQUEST_ROOM {
        return Err(Number::OutputTooShort);
    }
    Ok(put_clone(asked, out))
}
