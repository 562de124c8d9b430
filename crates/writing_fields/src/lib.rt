// One field, written into an output from an offset on. The values fit, and there is room (`sizing_fields`).
#![tactic(auto)]

ghost use Rattle.std.specs.Prelude.{◌≡◌, ◌+◌, ◌≤◌, length, take, drop};
ghost use Rattle.fields.specs.Codes.{field_of, Ready, Puts};
ghost use Rattle.fields.specs.Writing.{octets_in};

use fields::field_type::FieldType;
use fields::lent_values::LentValues;
use leb128::put_number;
use octets::limits::ADDRESS_OCTETS;
use writing::copy_octets;

// A part of what is lent.
fn put_part(out: &mut [u8], at: usize, source: &[u8], offset: u64, size: usize) -> usize
    requires { (offset + size ≤ length source.now) × (at + size ≤ length out.old) }
    ensures { let octets = take size (drop offset source.now) in
        Puts octets out.old at out.new result }
{
    let from = offset as usize;
    let end = from + size;
    copy_octets(out, at, &source[from..end]);
    at + size
}

// One field.
pub fn put_field(
    out: &mut [u8],
    at: usize,
    field: FieldType,
    values: LentValues,
    slot: usize,
) -> usize
    requires { Ready (field_of field) values.source.now values.slots.now slot out.old at }
    ensures { let octets = octets_in (field_of field) values.entry.source.now (drop slot values.entry.slots.now) in
        Puts octets out.old at out.new result }
{
    match field {
        FieldType::Number(_) => put_number(out, at, values.slots[slot]),
        FieldType::Address => put_part(out, at, values.source, values.slots[slot], ADDRESS_OCTETS),
        FieldType::OctetString => {
            let size = values.slots[slot + 1];
            let next = put_number(out, at, size);
            put_part(out, next, values.source, values.slots[slot], size as usize)
        }
    }
}
