// The reader: a chain is checked payload by payload, from its front, to its end or its first fault.
ghost use Rattle.std.specs.Prelude.{◌≡◌, ◌≢◌, ◌≤◌, length, MatchResult};
ghost use Rattle.octets.specs.Limits.{body_most};
ghost use Rattle.octets.specs.Numbers.{number_of};
ghost use Rattle.findings.specs.Seen.{nothing_seen};
ghost use Rattle.reader.specs.Chain.{ends, chain_at, Whole, Broken, stopped, scanned, answer, fault_number, fault_type};
ghost use Rattle.reader.specs.Chain.{refused, ReadAs};
ghost use Rattle.reader.specs.Ends.{ends_as, GoesOn, Scanning};

use findings::seen::{Seen, nothing_seen};
use noting::note::content_noted;
use octets::limits::{BODY_MOST, NOTIFY_HEADER};
use octets::number::Number;
use payload::payload::{Fault, payload_at};

// What a reading gives: its number, the offset of a fault, how many payloads stand before it, and what the payloads
// said.
#[repr(C)]
#[derive(Clone, Copy)]
pub struct Reading {
    pub number: u8,
    // The type of a payload that gives 7.
    pub critical: u8,
    pub offset: u16,
    pub ordinal: u16,
    pub seen: Seen,
}

// The number of a fault.
pub fn fault_number(f: Fault) -> Number
    ensures { result ≡ fault_number f }
{
    match f {
        Fault::ChainLength => Number::BadChainLength,
        Fault::NotifyShape => Number::BadNotify,
        Fault::DataSize => Number::BadDataSize,
        Fault::Conflict => Number::Repeated,
        Fault::Leftover => Number::OctetsAfterEnd,
        Fault::Critical(_) => Number::UnknownCritical,
    }
}

// The payload at `at`, which is not the end of the chain, noted in what was seen; its size.
#[tactic(auto, using(crate::proofs::Scan::at_fault, crate::proofs::Step::conflicted))]
fn payload_noted(payload_type: u8, body: &[u8], at: usize, seen: &mut Seen) -> Result<usize, Fault>
    requires { (payload_type ≢ 0) × Scanning body.now at seen.old }
    ensures { MatchResult result (λ size. GoesOn payload_type body.now at size seen.old seen.new)
        (λ f. scanned seen.old (chain_at body.now payload_type at) ≡ stopped (Broken f at) seen.new) }
{
    let (size, content) = payload_at(payload_type, body, at)?;
    content_noted(seen, content, (at + NOTIFY_HEADER) as u16)?;
    Ok(size)
}

// A refusal, which tells nothing of what was seen.
pub fn refuse(number: u8, critical: u8, offset: u16, ordinal: u16) -> Reading
    ensures { result ≡ refused number critical offset ordinal }
{
    Reading {
        number,
        critical,
        offset,
        ordinal,
        seen: nothing_seen(),
    }
}

// The type of a critical payload; 0 with any other fault.
fn fault_type(f: Fault) -> u8
    ensures { result ≡ fault_type f }
{
    match f {
        Fault::Critical(payload_type) => payload_type,
        _ => 0,
    }
}

impl Reading {
    // Stops at a fault: from there on the reading is a refusal. A payload is counted once it is known to have no fault,
    // so that the payloads counted are those before the faulty one.
    #[cold]
    fn stop(&mut self, f: Fault, at: usize)
        requires { at ≤ body_most }
        ensures { self.new ≡ ends_as (Broken f at) self.old.seen }
    {
        let number = u8::from(fault_number(f));
        *self = refuse(number, fault_type(f), at as u16, self.seen.tally.payloads);
    }

    // Ends: the chain is read whole.
    fn end(&mut self)
        ensures { self.new ≡ answer ends Whole self.old.seen }
    {
        self.number = u8::from(Number::Done);
        self.critical = 0;
        self.offset = 0;
        self.ordinal = 0;
    }
}

// Reads on from `at`, where a payload of type `payload_type` stands: one call a payload, the octets left falling by at
// least four. What comes of it stands in the reading, which is changed in place: a `Result<(), (Fault, u16)>` goes back
// through memory at each call (543 instructions for the chain of 112 octets, where a number in a register took 393).
pub fn scan_from(payload_type: u8, body: &[u8], at: usize, reading: &mut Reading)
    requires { Scanning body.now at reading.old.seen }
    ensures { let scan = scanned reading.old.seen (chain_at body.now payload_type at) in
        reading.new ≡ ends_as scan.outcome scan.seen }
{
    if payload_type == 0 {
        if at == body.len() {
            reading.end();
        } else {
            reading.stop(Fault::Leftover, at);
        }
        return;
    }
    match payload_noted(payload_type, body, at, &mut reading.seen) {
        Ok(size) => scan_from(body[at], body, at + size, reading),
        Err(fault) => reading.stop(fault, at),
    }
}

// The reading of a chain of which nothing was read yet.
fn nothing_read() -> Reading
    ensures { result ≡ answer ends Whole nothing_seen }
{
    Reading {
        number: u8::from(Number::Done),
        critical: 0,
        offset: 0,
        ordinal: 0,
        seen: nothing_seen(),
    }
}

// Reads octets that are not too many as a chain that begins with a payload of type `first`. The handler, whose checks
// have the length already, calls this; `read` has the same lines, since through a call it would copy the reading.
#[tactic(auto, using(crate::proofs::Begun::begins))]
pub fn read_short(first: u8, body: &[u8]) -> Reading
    requires { length body.now ≤ body_most }
    ensures { ReadAs first body.now result }
{
    let mut reading = nothing_read();
    scan_from(first, body, 0, &mut reading);
    reading
}

// Reads any octets as a chain that begins with a payload of type `first`.
#[tactic(auto, using(crate::proofs::Begun::begins, crate::proofs::Begun::too_long))]
pub fn read(first: u8, body: &[u8]) -> Reading
    ensures { ReadAs first body.now result }
{
    if BODY_MOST < body.len() {
        return refuse(u8::from(Number::BodyTooLong), 0, 0, 0);
    }
    let mut reading = nothing_read();
    scan_from(first, body, 0, &mut reading);
    reading
}
