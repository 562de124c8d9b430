// One payload of a chain: where it ends and what it is, or what is wrong with it.
ghost use Rattle.std.specs.Prelude.{◌≡◌, ◌+◌, ◌≤◌, ◌<◌, length};
ghost use Rattle.payload.specs.Payload.{notify_at, payload_at};
ghost use Rattle.payload.specs.Spi.{spi_inside};
ghost use Rattle.notify.specs.Notify.{kind_of};

use notify::notify::{NotifyKind, NotifyType, data_fits};
use octets::be16_at;
use octets::limits::{NOTIFY_HEADER, PAYLOAD_HEADER};
use octets::wire::{CRITICAL_BIT, FIRST_KNOWN_PAYLOAD, LAST_KNOWN_PAYLOAD, NOTIFY_PAYLOAD};

// Where the fields of a payload stand, counted from its first octet, as `specs/Payload.antt` has them with the
// diagram. The next payload's type is the first octet itself.
const FLAGS: usize = 1;

pub const LENGTH: usize = 2;

// Two more of a Notify, behind the header.
pub const SPI_SIZE: usize = 5;

pub const NOTIFY_TYPE: usize = 6;

// What can be wrong with a chain.
#[derive(Clone, Copy, PartialEq, Eq, Debug)]
pub enum Fault {
    // Fewer octets left than a header has, or a length under a header's or past the end.
    ChainLength,
    // A Notify shorter than its header, an SPI past its length, or an SPI where the type has none.
    NotifyShape,
    // Notification data of a size that its type does not allow.
    DataSize,
    // A notification that may not stand twice, or that contradicts an earlier one.
    Conflict,
    // Octets after the end of the chain.
    Leftover,
    // A payload of this type, which is not known, marked critical.
    Critical(u8),
}

// What a payload is to the reader.
#[derive(Clone, Copy, PartialEq, Eq, Debug)]
pub enum Content {
    // A type that is known and of no concern here.
    Skipped,
    // A type that is not known, not marked critical.
    Unknown,
    // A Notify: its kind, its notify type, and how many octets of data it has.
    Notify(NotifyKind, u16, u16),
}

// Whether a Notify of this type and of `size` octets may have an SPI of so many. Most have none, so that is asked
// first.
pub fn spi_fits(notify_type: u16, spi_size: usize, size: usize) -> bool
    requires { spi_size < 256 }
    ensures { result ≡ spi_inside (kind_of notify_type) spi_size size }
{
    let notify_type = NotifyType {
        number: notify_type,
    };
    spi_size == 0 || NOTIFY_HEADER + spi_size <= size && notify_type.kind().is_unknown()
}

// The Notify at `at`, of `size` octets: its size and what it is, or what is wrong with it. Its data, which starts in the
// middle of the body, is passed on as a part.
#[tactic(auto, unfolding(crate::specs::Payload::notify_at))]
pub fn notify_at(body: &[u8], at: usize, size: usize) -> Result<(usize, Content), Fault>
    requires { (at + size ≤ length body.now) × (size < 65536) }
    ensures { result ≡ notify_at body.now at size }
{
    if size < NOTIFY_HEADER {
        return Err(Fault::NotifyShape);
    }
    let spi_size = body[at + SPI_SIZE] as usize;
    let notify_type = be16_at(body, at + NOTIFY_TYPE);
    if !spi_fits(notify_type, spi_size, size) {
        return Err(Fault::NotifyShape);
    }
    let kind = NotifyType {
        number: notify_type,
    }
    .kind();
    let data = &body[at + NOTIFY_HEADER + spi_size..at + size];
    if !data_fits(kind, data) {
        return Err(Fault::DataSize);
    }
    Ok((size, Content::Notify(kind, notify_type, data.len() as u16)))
}

// The payload of type `payload_type` at `at`: how many octets it has, its header counted, and what it is.
#[tactic(auto, unfolding(crate::specs::Payload::payload_at, crate::specs::Payload::sized))]
pub fn payload_at(payload_type: u8, body: &[u8], at: usize) -> Result<(usize, Content), Fault>
    requires { at ≤ length body.now }
    ensures { result ≡ payload_at payload_type body.now at }
{
    let left = body.len() - at;
    if left < PAYLOAD_HEADER {
        return Err(Fault::ChainLength);
    }
    let size = be16_at(body, at + LENGTH) as usize;
    if size < PAYLOAD_HEADER || left < size {
        return Err(Fault::ChainLength);
    }
    match payload_type {
        NOTIFY_PAYLOAD => notify_at(body, at, size),
        FIRST_KNOWN_PAYLOAD..=LAST_KNOWN_PAYLOAD => Ok((size, Content::Skipped)),
        _ if CRITICAL_BIT <= body[at + FLAGS] => Err(Fault::Critical(payload_type)),
        _ => Ok((size, Content::Unknown)),
    }
}
