// The call that reads one entry of a trace.
ghost use Rattle.std.specs.Prelude.{◌≡◌};
ghost use Rattle.entries.specs.Entries.{entry_at};
ghost use Rattle.entry_calls.specs.EntryCalls.{entry_read};

use entries::ENTRY_SLOTS;
use reading_entries::read_entry;

#[repr(C)]
#[derive(Clone, Copy)]
pub struct EntryRead {
    // 0, or why it is refused: 20, 21, 22, and then all else is 0.
    pub number: u8,
    pub kind: u8,
    // The offset after it.
    pub next: usize,
    // Its values in the order of its fields; addresses and strings by their offsets in the trace.
    pub slots: [u64; ENTRY_SLOTS],
}

// The entry at `at`.
pub fn entry_read(trace: &[u8], at: usize) -> EntryRead
    ensures { result ≡ entry_read (entry_at trace.now at) }
{
    let mut slots = [0; ENTRY_SLOTS];
    match read_entry(trace, at, &mut slots) {
        Ok((kind, next)) => EntryRead {
            number: 0,
            kind: u8::from(kind),
            next,
            slots,
        },
        Err(why) => EntryRead {
            number: u8::from(why),
            kind: 0,
            next: 0,
            slots: [0; ENTRY_SLOTS],
        },
    }
}
