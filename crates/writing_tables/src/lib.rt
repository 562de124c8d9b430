// A table of fields, written into an output from an offset on. The values fit, and there is room (`sizing_tables`).
#![tactic(auto)]

ghost use Rattle.std.specs.Prelude.{◌≡◌, ◌+◌, ◌≤◌, length, drop};
ghost use Rattle.fields.specs.Fields.{list_of, ◌then◌};
ghost use Rattle.fields.specs.Slots.{width};
ghost use Rattle.fields.specs.Codes.{table_of, Ready, Puts};
ghost use Rattle.fields.specs.Writing.{octets_in};

use fields::field_type::{FieldType, LIST_PLACES};
use fields::lent_values::LentValues;
use fields::listed::Listed;
use leb128::put_number;
use writing_fields::put_field;

// A whole table.
pub fn put_table(
    out: &mut [u8],
    at: usize,
    table: &[FieldType],
    values: LentValues,
    slot: usize,
) -> usize
    requires { Ready (table_of table.now) values.source.now values.slots.now slot out.old at }
    ensures { let octets = octets_in (table_of table.now) values.entry.source.now (drop slot values.entry.slots.now) in
        Puts octets out.old at out.new result }
{
    let mut next = at;
    let mut place = slot;
    for field in table {
        next = put_field(out, next, *field, values, place);
        place += field.width();
    }
    next
}

// A list.
fn put_list(out: &mut [u8], at: usize, list: Listed, values: LentValues, slot: usize) -> usize
    requires ready { Ready (list_of (table_of list.each.now)) values.source.now values.slots.now slot out.old at }
    ensures { let f = list_of (table_of list.entry.each.now) in
        let octets = octets_in f values.entry.source.now (drop slot values.entry.slots.now) in
        Puts octets out.old at out.new result }
{
    let count = values.slots[slot];
    let mut next = put_number(out, at, count);
    let mut place = slot + 1;
    for _ in 0..count {
        next = put_table(out, next, list.each, values, place);
        place += list.size;
    }
    next
}

// A list, and the fields that follow it.
pub fn put_listed(out: &mut [u8], at: usize, list: Listed, values: LentValues, slot: usize) -> usize
    requires ready { let f = list_of (table_of list.each.now) then table_of list.last.now in
        Ready f values.source.now values.slots.now slot out.old at }
    ensures { let f = list_of (table_of list.entry.each.now) then table_of list.entry.last.now in
        let octets = octets_in f values.entry.source.now (drop slot values.entry.slots.now) in
        Puts octets out.old at out.new result }
{
    let next = put_list(out, at, list, values, slot);
    let place = slot + 1 + LIST_PLACES * list.size;
    put_table(out, next, list.last, values, place)
}
