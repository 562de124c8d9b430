// The request writer: the notifications that are asked for, in one fixed order, as a payload chain.
ghost use Rattle.std.specs.Prelude.{◌≡◌, ◌≢◌, true, ◌≤◌, length, Ok, IfErr};
ghost use Rattle.octets.specs.Limits.{request_room};
ghost use Rattle.octets.specs.Numbers.{number_of};
ghost use Rattle.writing.specs.Notify.{placed};
ghost use Rattle.asking.specs.Draft.{request_octets};
ghost use Rattle.asking.specs.Fits.{request_fits};
ghost use Rattle.asking.specs.Wanted.{draft_of};
ghost use Rattle.requests.specs.Told.{told_as};
ghost use Rattle.requests.specs.Written.{complete, WrittenAs};

use asking::ask::Wanted;
use notify::notify::NotifyType;
use octets::limits::REQUEST_ROOM;
use octets::number::Number;
use putting::put::{put_if, put_nats, put_no_nats, put_tail, tail_type, type_if};

// A chain that was written: the type of its first payload (0: none) and how many octets it has.
#[derive(Clone, Copy, PartialEq, Eq, Debug)]
pub struct Chain {
    pub first: u8,
    pub length: u16,
}

// What a host is told: the number, the type of the first payload (0: none) and the octets written.
#[repr(C)]
#[derive(Clone, Copy)]
pub struct Written {
    pub number: u8,
    pub first: u8,
    pub length: u16,
}

impl From<Result<Chain, Number>> for Written {
    ghost from_gives = { λ written r. r ≡ told_as written };

    fn from(written: Result<Chain, Number>) -> Written {
        match written {
            Ok(chain) => Written {
                number: u8::from(Number::Done),
                first: chain.first,
                length: chain.length,
            },
            Err(number) => Written {
                number: u8::from(number),
                first: 0,
                length: 0,
            },
        }
    }
}

// Writes all that is asked for to the start of `out`.
pub fn put_request(wanted: Wanted<'_>, out: &mut [u8]) -> Chain
    requires { (request_room ≤ length out.old) × (request_fits (draft_of wanted) ≡ true) }
    ensures { let q = draft_of wanted.entry in
        (told_as (Ok result) ≡ complete q) × (out.new ≡ placed out.old 0 (request_octets q)) }
{
    let ask = wanted.ask;
    let addresses = wanted.addresses;
    let count = ask.count as usize;
    let asked = &addresses[..count];
    let to_tail = tail_type(ask.no_additional, count, wanted.cookie.len());
    let to_nats = type_if(ask.nat_source, to_tail);
    let to_no_nats = type_if(ask.no_nats, to_nats);
    let a = put_if(
        out,
        0,
        ask.update,
        to_no_nats,
        NotifyType::UPDATE_SA_ADDRESSES,
        &[],
    );
    let b = put_no_nats(out, a, ask.no_nats, to_nats, wanted.pair);
    let c = put_nats(
        out,
        b,
        ask.nat_source,
        to_tail,
        wanted.nat_source,
        wanted.nat_destination,
    );
    let end = put_tail(out, c, ask.no_additional, asked, wanted.cookie);
    Chain {
        first: type_if(ask.update, to_no_nats),
        length: end as u16,
    }
}

// The room that the output must have, whatever is to be written.
const ROOM: usize = REQUEST_ROOM;

// Writes a request to the start of `out`, and leaves the octets past it as they are. The longest request has 564
// octets and 21 Notify payloads; a peer may refuse that many (strongSwan 5.9.8 refuses a message with more than 20,
// and destroys the SA), so ask for less at once where the peer isn't known. No refusal is told as
// done.
pub fn write(wanted: Wanted<'_>, out: &mut [u8]) -> Result<Chain, Number>
    ensures value { WrittenAs (draft_of wanted.entry) out.old (told_as result) out.new }
    ensures refused { IfErr result (λ number. number_of number ≢ 0) }
{
    if !wanted.fits() {
        return Err(Number::BadArgument);
    }
    if out.len() < ROOM {
        return Err(Number::OutputTooShort);
    }
    Ok(put_request(wanted, out))
}
