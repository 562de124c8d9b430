// A clone request's chain, read as every chain, and looked at for the two notify types that only it knows.
ghost use Rattle.std.specs.Prelude.{◌≡◌, false, ◌||◌, ◌+◌, ◌≤◌, eqb, length, get_or, MatchResult};
ghost use Rattle.octets.specs.Limits.{body_most, notify_header};
ghost use Rattle.octets.specs.Numbers.{number_of};
ghost use Rattle.octets.specs.Wire.{notify_payload};
ghost use Rattle.payload.specs.Payload.{spi_size_at};
ghost use Rattle.reader.specs.Chain.{chain_at};
ghost use Rattle.clone_chain.specs.CloneChain.{is_clone, clone_reading};
ghost use Rattle.clone_chain.specs.Look.{notify_type_of, number_at, look_to, WellFormed, Malformed, Reaches, stop_of};

use notify::notify::NotifyType;
use octets::be16_at;
use octets::limits::NOTIFY_HEADER;
use octets::number::Number;
use octets::wire::NOTIFY_PAYLOAD;
use payload::payload::{LENGTH, NOTIFY_TYPE, SPI_SIZE};
use reader::read::{Reading, read_short, refuse};

// What reading a clone request gives: the reading of its chain, and which of the two stand in it.
#[derive(Clone, Copy)]
pub struct CloneReading {
    pub reading: Reading,
    pub supported: bool,
    pub clone: bool,
}

// Which of the two were found.
#[derive(Clone, Copy, PartialEq, Eq, Debug)]
struct TwoFound {
    supported: bool,
    clone: bool,
}

// The first of the two that is malformed: its number, its offset and how many payloads stand before it.
#[derive(Clone, Copy, PartialEq, Eq, Debug)]
struct FaultAt {
    number: Number,
    offset: u16,
    ordinal: u16,
}

// The SPI size of the Notify at `at`; 0 past the end.
fn spi_size_at(body: &[u8], at: usize) -> u8
    requires { at ≤ length body.now }
    ensures { result ≡ get_or body.now (at + spi_size_at) 0 }
{
    if SPI_SIZE < body.len() - at {
        body[at + SPI_SIZE]
    } else {
        0
    }
}

fn is_clone(notify_type: u16) -> bool
    ensures { result ≡ is_clone notify_type }
{
    matches!(
        notify_type,
        NotifyType::CLONE_IKE_SA_SUPPORTED | NotifyType::CLONE_IKE_SA
    )
}

// Whether one of this type was there already, or is the payload.
fn stands(already: bool, notify_type: u16, wanted: u16) -> bool
    ensures { result ≡ already || eqb notify_type wanted }
{
    already || notify_type == wanted
}

// The notify type of the payload at `at`; 0, which is neither of the two, where it is no Notify.
fn notify_type_of(payload_type: u8, body: &[u8], at: usize) -> u16
    requires { payload_type ≡ notify_payload → at + notify_header ≤ length body.now }
    ensures { result ≡ notify_type_of payload_type body.now at }
{
    if payload_type == NOTIFY_PAYLOAD {
        be16_at(body, at + NOTIFY_TYPE)
    } else {
        0
    }
}

// That nothing is wrong with a Notify of this type and of `size` octets as one of the two.
fn well_formed(body: &[u8], at: usize, notify_type: u16, size: usize) -> Result<(), Number>
    requires { at ≤ length body.now }
    ensures { MatchResult result (λ _. number_at body.now at notify_type size ≡ 0)
        (λ n. (number_at body.now at notify_type size ≡ number_of n) × (1 ≤ number_of n)) }
{
    if !is_clone(notify_type) {
        return Ok(());
    }
    if spi_size_at(body, at) != 0 {
        return Err(Number::BadNotify);
    }
    if size != NOTIFY_HEADER {
        return Err(Number::BadDataSize);
    }
    Ok(())
}

// Looks for the two among the payloads before `stop`, up to which the chain was read already, so that their sizes and
// types are taken as they stand. A second caller of `payload_at` would keep the compiler from putting that function
// into the reader's own loop, and every reading would take more time and twice the stack. A `while`, since each payload
// tells where the next one begins.
fn look_to(first: u8, body: &[u8], stop: usize) -> Result<TwoFound, FaultAt>
    requires { (stop ≤ length body.now) × (length body.now ≤ body_most)
        × Reaches stop (chain_at body.now first 0) }
    ensures { let look = look_to stop body.now 0 false false (chain_at body.now first 0) in
        MatchResult result (λ k. WellFormed look k.supported k.clone) (λ f. Malformed look f.number f.offset f.ordinal) }
{
    let mut payload_type = first;
    let mut at: usize = 0;
    let mut ordinal: u16 = 0;
    let mut supported = false;
    let mut clone = false;
    while at < stop {
        let size = be16_at(body, at + LENGTH) as usize;
        let notify_type = notify_type_of(payload_type, body, at);
        if let Err(number) = well_formed(body, at, notify_type, size) {
            let offset = at as u16;
            return Err(FaultAt {
                number,
                offset,
                ordinal,
            });
        }
        supported = stands(supported, notify_type, NotifyType::CLONE_IKE_SA_SUPPORTED);
        clone = stands(clone, notify_type, NotifyType::CLONE_IKE_SA);
        payload_type = body[at];
        at += size;
        ordinal += 1;
    }
    Ok(TwoFound { supported, clone })
}

// Where a reading of `size` octets stopped.
fn stop_of(r: Reading, size: usize) -> usize
    ensures { result ≡ stop_of r size }
{
    if r.number == 0 {
        size
    } else {
        r.offset as usize
    }
}

// Reads a clone request of at most 4,096 octets.
pub fn read_clone(first: u8, body: &[u8]) -> CloneReading
    requires { length body.now ≤ body_most }
    ensures { result ≡ clone_reading first body.now }
{
    let r = read_short(first, body);
    let stop = stop_of(r, body.len());
    match look_to(first, body, stop) {
        Err(fault) => CloneReading {
            reading: refuse(u8::from(fault.number), 0, fault.offset, fault.ordinal),
            supported: false,
            clone: false,
        },
        Ok(_) if r.number != 0 => CloneReading {
            reading: r,
            supported: false,
            clone: false,
        },
        Ok(kept) => CloneReading {
            reading: r,
            supported: kept.supported,
            clone: kept.clone,
        },
    }
}
