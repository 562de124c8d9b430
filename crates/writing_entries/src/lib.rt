// One entry, written into an output. Its values come in slots, in the order of its fields; its addresses and strings
// are parts of what is lent beside them.
#![tactic(auto)]

ghost use Rattle.std.specs.Prelude.{◌≡◌, ◌≤◌, length};
ghost use Rattle.entries.specs.Slots.{entry_slots};
ghost use Rattle.entries.specs.Writing.{written_step, written_out};

use entries::kind::Kind;
use fields::room::{Unfit, less_by};
use leb128::{number_size, put_number};
use sizing_kinds::fields_room;
use writing_kinds::put_fields;

// Writes an entry at the front of the output, or nothing; says how many octets.
pub fn write_entry(out: &mut [u8], kind: Kind, slots: &[u64], source: &[u8]) -> Result<usize, Unfit>
    requires { entry_slots ≤ length slots.now }
    ensures value { result ≡ written_step kind source.now slots.now out.old }
    ensures out_after { out.new ≡ written_out kind source.now slots.now out.old }
{
    let number = u64::from(u8::from(kind));
    let size = out.len();
    let room = less_by(number_size(number), Ok(size));
    let left = fields_room(kind, slots, source, room)?;
    let at = put_number(out, 0, number);
    put_fields(out, at, kind, slots, source);
    Ok(size - left)
}
