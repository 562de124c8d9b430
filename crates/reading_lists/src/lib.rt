// A list of what a table says, read at an offset of a lent buffer. What is read goes to lent slots, from `slot` on.
#![tactic(auto)]

ghost use Rattle.std.specs.Prelude.{◌≡◌, ◌+◌, ◌≤◌, length};
ghost use Rattle.fields.specs.Fields.{list_of, ◌then◌};
ghost use Rattle.fields.specs.Slots.{width};
ghost use Rattle.fields.specs.Codes.{table_of, ReadsTo};

use fields::field_type::{LIST_MOST, LIST_PLACES};
use fields::listed::Listed;
use fields::refusal::Refusal;
use leb128::read_number;
use reading_fields::filling::fill;
use reading_tables::read_table;

// A list: its count, the items that it has, and 0 in the slots of those that it could have more.
fn read_list(
    s: &[u8],
    at: usize,
    list: Listed,
    slots: &mut [u64],
    slot: usize,
) -> Result<usize, Refusal>
    requires each_in_bounds { slot + width (list_of (table_of list.each.now)) ≤ length slots.old }
    ensures { let f = list_of (table_of list.entry.each.now) in
        ReadsTo f s.now at slots.old slot slots.new result }
{
    let (count, mut next) = read_number(s, at).ok_or(Refusal::Cut)?;
    if count > LIST_MOST {
        return Err(Refusal::TooLarge);
    }
    slots[slot] = count;
    let mut place = slot + 1;
    for _ in 0..count {
        next = read_table(s, next, list.each, slots, place)?;
        place += list.size;
    }
    fill(slots, place, slot + 1 + LIST_PLACES * list.size);
    Ok(next)
}

// A list, and the fields that follow it.
pub fn read_listed(
    s: &[u8],
    at: usize,
    list: Listed,
    slots: &mut [u64],
    slot: usize,
) -> Result<usize, Refusal>
    requires last_in_bounds { slot + width (list_of (table_of list.each.now) then table_of list.last.now) ≤ length slots.old }
    ensures { let f = list_of (table_of list.entry.each.now) then table_of list.entry.last.now in
        ReadsTo f s.now at slots.old slot slots.new result }
{
    let next = read_list(s, at, list, slots, slot)?;
    read_table(
        s,
        next,
        list.last,
        slots,
        slot + 1 + LIST_PLACES * list.size,
    )
}
