// The call that writes one entry of a trace.
ghost use Rattle.std.specs.Prelude.{◌≡◌};
ghost use Rattle.entries.specs.Entries.{kind_of};
ghost use Rattle.entry_calls.specs.EntryCalls.{entry_written, entry_out};

use entries::ENTRY_SLOTS;
use entries::kind::Kind;
use writing_entries::write_entry;

#[repr(C)]
#[derive(Clone, Copy)]
pub struct EntryWritten {
    // 0; or 21 unknown kind, 22 a value that does not fit its field, 2 output too short, and then nothing is written.
    pub number: u8,
    // How many octets were written.
    pub length: usize,
}

// Writes an entry at the front of the output. Its addresses and strings are parts of `source`, by their offsets there.
pub fn entry_written(
    kind: u8,
    slots: &[u64; ENTRY_SLOTS],
    source: &[u8],
    out: &mut [u8],
) -> EntryWritten
    ensures result_value { let known = kind_of kind in
        result ≡ entry_written known source.now slots.now out.old }
    ensures out_after { let known = kind_of kind in
        out.new ≡ entry_out known source.now slots.now out.old }
{
    let written = match Kind::try_from(u64::from(kind)) {
        Ok(kind) => write_entry(out, kind, slots, source).map_err(|why| u8::from(why)),
        Err(why) => Err(u8::from(why)),
    };
    match written {
        Ok(length) => EntryWritten { number: 0, length },
        Err(number) => EntryWritten { number, length: 0 },
    }
}
