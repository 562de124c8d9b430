// What a table of fields leaves of the room of an output, before anything is written: a value that does not fit its
// field is told before an output that is too short.
#![tactic(auto)]

ghost use Rattle.std.specs.Prelude.{◌≡◌, ◌+◌, ◌≤◌, length, drop};
ghost use Rattle.fields.specs.Fields.{list_of, ◌then◌};
ghost use Rattle.fields.specs.Slots.{width};
ghost use Rattle.fields.specs.Codes.{table_of};
ghost use Rattle.fields.specs.Writing.{room_in};

use fields::field_type::{FieldType, LIST_MOST, LIST_PLACES};
use fields::lent_values::LentValues;
use fields::listed::Listed;
use fields::room::{Unfit, less_by};
use leb128::number_size;
use sizing_fields::field_room;

// A whole table.
pub fn table_room(
    table: &[FieldType],
    values: LentValues,
    slot: usize,
    room: Result<usize, Unfit>,
) -> Result<usize, Unfit>
    requires { slot + width (table_of table.now) ≤ length values.slots.now }
    ensures { let f = table_of table.now in
        result ≡ room_in f values.entry.source.now (drop slot values.entry.slots.now) room }
{
    let mut left = room;
    let mut place = slot;
    for field in table {
        left = field_room(*field, values, place, left);
        place += field.width();
    }
    left
}

// A list.
fn list_room(
    list: Listed,
    values: LentValues,
    slot: usize,
    room: Result<usize, Unfit>,
) -> Result<usize, Unfit>
    requires each_in_bounds { slot + width (list_of (table_of list.each.now)) ≤ length values.slots.now }
    ensures { let f = list_of (table_of list.entry.each.now) in
        result ≡ room_in f values.entry.source.now (drop slot values.entry.slots.now) room }
{
    let count = values.slots[slot];
    if count > LIST_MOST {
        return Err(Unfit::TooLarge);
    }
    let mut left = less_by(number_size(count), room);
    let mut place = slot + 1;
    for _ in 0..count {
        left = table_room(list.each, values, place, left);
        place += list.size;
    }
    left
}

// A list, and the fields that follow it.
pub fn listed_room(
    list: Listed,
    values: LentValues,
    slot: usize,
    room: Result<usize, Unfit>,
) -> Result<usize, Unfit>
    requires last_in_bounds { let f = list_of (table_of list.each.now) then table_of list.last.now in
        slot + width f ≤ length values.slots.now }
    ensures { let f = list_of (table_of list.entry.each.now) then table_of list.entry.last.now in
        result ≡ room_in f values.entry.source.now (drop slot values.entry.slots.now) room }
{
    let left = list_room(list, values, slot, room);
    let place = slot + 1 + LIST_PLACES * list.size;
    table_room(list.last, values, place, left)
}
