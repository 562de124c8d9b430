// What the payloads of a chain have said: counts, flags, and the offsets of the data that is handed out.
ghost use Rattle.std.specs.Prelude.{◌≡◌};
ghost use Rattle.findings.specs.Seen.{nothing_seen};

use octets::limits::ADDRESSES_MOST;

// How many payloads there were, and how many of them are not known here.
#[repr(C)]
#[derive(Clone, Copy, PartialEq, Eq, Debug)]
pub struct Tally {
    pub payloads: u16,
    pub unknown_payloads: u16,
    // Notifications of a type that is not in the table.
    pub unknown_notifies: u16,
    // Those of them that are errors, and the type of the first.
    pub errors: u16,
    pub first_error: u16,
}

// The additional addresses: all are counted, and of the first sixteen the offset of their data and their family are
// kept.
#[repr(C)]
#[derive(Clone, Copy, PartialEq, Eq, Debug)]
pub struct Offsets {
    pub count: u16,
    pub offsets: [u16; ADDRESSES_MOST],
    pub families: [u8; ADDRESSES_MOST],
}

// Data is told by the offset in the body at which it begins. Behind a header that is never 0, so 0 means none.
#[repr(C)]
#[derive(Clone, Copy, PartialEq, Eq, Debug)]
pub struct Seen {
    pub tally: Tally,
    pub update: bool,
    pub no_additional: bool,
    pub nat_source: u16,
    pub nat_destination: u16,
    pub no_nats: u16,
    pub no_nats_len: u16,
    pub cookie: u16,
    pub cookie_len: u16,
    pub list: Offsets,
}

// Written out: that `Default` makes the same needs a lemma longer than this.
pub fn nothing_seen() -> Seen
    ensures { result ≡ nothing_seen }
{
    let tally = Tally {
        payloads: 0,
        unknown_payloads: 0,
        unknown_notifies: 0,
        errors: 0,
        first_error: 0,
    };
    let list = Offsets {
        count: 0,
        offsets: [0u16; ADDRESSES_MOST],
        families: [0u8; ADDRESSES_MOST],
    };
    Seen {
        tally,
        update: false,
        no_additional: false,
        nat_source: 0,
        nat_destination: 0,
        no_nats: 0,
        no_nats_len: 0,
        cookie: 0,
        cookie_len: 0,
        list,
    }
}
