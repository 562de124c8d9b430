// The calls that read and write one entry of a trace.
ghost use Rattle.std.specs.Prelude.{◌≡◌};
ghost use Rattle.entries.specs.Entries.{entry_at, kind_of};
ghost use Rattle.entry_calls.specs.EntryCalls.{entry_read, entry_written, entry_out};

use entries::ENTRY_SLOTS;
use entry_calls::read::EntryRead;
use entry_calls::write::EntryWritten;

// Reads the entry at an offset of a trace.
pub fn unmavreth_read_entry(trace: &[u8], at: usize) -> EntryRead
    ensures { result ≡ entry_read (entry_at trace.now at) }
{
    entry_calls::read::entry_read(trace, at)
}

// Writes an entry at the front of the output. Its addresses and strings are parts of `source`, by their offsets there.
pub fn unmavreth_write_entry(
    kind: u8,
    slots: &[u64; ENTRY_SLOTS],
    source: &[u8],
    out: &mut [u8],
) -> EntryWritten
    ensures result_value { let known = kind_of kind in
        result ≡ entry_written known source.now slots.now out.old }
    ensures out_after { let known = kind_of kind in
        out.new ≡ entry_out known source.now slots.now out.old }
{
    entry_calls::write::entry_written(kind, slots, source, out)
}
