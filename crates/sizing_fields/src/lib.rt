// What a field leaves of the room of an output, before anything is written: a value that does not fit its
// field is told before an output that is too short, so `room` is handed on as a Result, and not returned at once where it
// is an Err.
#![tactic(auto)]

ghost use Rattle.std.specs.Prelude.{◌≡◌, ◌+◌, ◌≤◌, leb, length, drop};
ghost use Rattle.fields.specs.Fields.{up_to, address, string};
ghost use Rattle.fields.specs.Slots.{width};
ghost use Rattle.fields.specs.Codes.{field_of};
ghost use Rattle.fields.specs.Writing.{room_in};

use fields::field_type::{FieldType, STRING_MOST};
use fields::lent_values::LentValues;
use fields::room::{Unfit, less_by};
use leb128::number_size;
use octets::limits::ADDRESS_OCTETS;

// Whether a part lies within what is lent.
fn lies_within(length: usize, offset: u64, size: u64) -> bool
    ensures { result ≡ leb (offset + size) length }
{
    offset as usize <= length && size as usize <= length - offset as usize
}

// A number of at most `most`.
fn number_room(
    most: u64,
    values: LentValues,
    slot: usize,
    room: Result<usize, Unfit>,
) -> Result<usize, Unfit>
    requires { slot + 1 ≤ length values.slots.now }
    ensures { result ≡ room_in (up_to most) values.entry.source.now (drop slot values.entry.slots.now) room }
{
    let v = values.slots[slot];
    if v > most {
        return Err(Unfit::TooLarge);
    }
    less_by(number_size(v), room)
}

fn address_room(values: LentValues, slot: usize, room: Result<usize, Unfit>) -> Result<usize, Unfit>
    requires { slot + 1 ≤ length values.slots.now }
    ensures { result ≡ room_in address values.entry.source.now (drop slot values.entry.slots.now) room }
{
    if lies_within(
        values.source.len(),
        values.slots[slot],
        ADDRESS_OCTETS as u64,
    ) {
        return less_by(ADDRESS_OCTETS, room);
    }
    Err(Unfit::TooLarge)
}

fn string_room(values: LentValues, slot: usize, room: Result<usize, Unfit>) -> Result<usize, Unfit>
    requires { slot + 2 ≤ length values.slots.now }
    ensures { result ≡ room_in string values.entry.source.now (drop slot values.entry.slots.now) room }
{
    let size = values.slots[slot + 1];
    if size > STRING_MOST {
        return Err(Unfit::TooLarge);
    }
    if lies_within(values.source.len(), values.slots[slot], size) {
        return less_by(number_size(size) + size as usize, room);
    }
    Err(Unfit::TooLarge)
}

// One field.
pub fn field_room(
    field: FieldType,
    values: LentValues,
    slot: usize,
    room: Result<usize, Unfit>,
) -> Result<usize, Unfit>
    requires { slot + width (field_of field) ≤ length values.slots.now }
    ensures { result ≡ room_in (field_of field) values.entry.source.now (drop slot values.entry.slots.now) room }
{
    match field {
        FieldType::Number(most) => number_room(most, values, slot, room),
        FieldType::Address => address_room(values, slot, room),
        FieldType::OctetString => string_room(values, slot, room),
    }
}
