// A table of fields, read at an offset of a lent buffer. What is read goes to lent slots, from `slot` on.
#![tactic(auto)]

ghost use Rattle.std.specs.Prelude.{◌+◌, ◌≤◌, length};
ghost use Rattle.fields.specs.Slots.{width};
ghost use Rattle.fields.specs.Codes.{table_of, ReadsTo};

use fields::field_type::FieldType;
use fields::refusal::Refusal;
use reading_fields::read_field;

// A whole table.
pub fn read_table(
    s: &[u8],
    at: usize,
    table: &[FieldType],
    slots: &mut [u64],
    slot: usize,
) -> Result<usize, Refusal>
    requires { (at ≤ length s.now) × (slot + width (table_of table.now) ≤ length slots.old) }
    ensures { let f = table_of table.now in
        ReadsTo f s.now at slots.old slot slots.new result }
{
    let mut next = at;
    let mut place = slot;
    for field in table {
        next = read_field(s, next, *field, slots, place)?;
        place += field.width();
    }
    Ok(next)
}
