// Entries of a trace, read and written, for C.
ghost use Rattle.std.specs.Prelude.{◌≡◌};
ghost use Rattle.entries.specs.Entries.{entry_at, kind_of};
ghost use Rattle.entry_calls.specs.EntryCalls.{entry_read, entry_written, entry_out};

use entries::ENTRY_SLOTS;
use entry_calls::read::EntryRead;
use entry_calls::write::EntryWritten;

// Reads the entry at an offset of a trace.
#[unsafe(no_mangle)]
pub extern "C" fn unmavreth_read_entry(trace: &[u8], at: usize) -> EntryRead
    ensures { result ≡ entry_read (entry_at trace.now at) }
{
    host::trace::unmavreth_read_entry(trace, at)
}

// Writes an entry at the front of the output. Its addresses and strings are parts of `source`, by their offsets there.
#[unsafe(no_mangle)]
pub extern "C" fn unmavreth_write_entry(
    kind: u8,
    slots: &[u64; ENTRY_SLOTS],
    source: &[u8],
    out: &mut [u8],
) -> EntryWritten
    ensures result_value { let known = kind_of kind in
        result ≡ entry_written known source.now slots.now out.old }
    ensures out_after { let known = kind_of kind in
        out.new ≡ entry_out known source.now slots.now out.old }
{
    host::trace::unmavreth_write_entry(kind, slots, source, out)
}
