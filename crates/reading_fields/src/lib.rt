// One field, read at an offset of a lent buffer. What is read goes to lent slots, from `slot` on.
// (The buffer, its offset, the slots and theirs stay four parameters: both offsets go on with each field and the slots are
// changed, so a struct of them would be taken apart in each function.)
#![tactic(auto)]

pub mod filling;

ghost use Rattle.std.specs.Prelude.{◌≡◌, ◌+◌, ◌≤◌, length};
ghost use Rattle.fields.specs.Fields.{up_to, address, string};
ghost use Rattle.fields.specs.Slots.{width};
ghost use Rattle.fields.specs.Codes.{field_of, ReadsTo};

use fields::field_type::{FieldType, STRING_MOST};
use fields::refusal::Refusal;
use leb128::read_number;
use octets::limits::ADDRESS_OCTETS;

// A number of at most `most`.
fn read_limited(
    s: &[u8],
    at: usize,
    most: u64,
    slots: &mut [u64],
    slot: usize,
) -> Result<usize, Refusal>
    requires { slot + 1 ≤ length slots.old }
    ensures { ReadsTo (up_to most) s.now at slots.old slot slots.new result }
{
    let (v, next) = read_number(s, at).ok_or(Refusal::Cut)?;
    if v > most {
        return Err(Refusal::TooLarge);
    }
    slots[slot] = v;
    Ok(next)
}

// Sixteen octets as they stand: their offset.
fn read_address(s: &[u8], at: usize, slots: &mut [u64], slot: usize) -> Result<usize, Refusal>
    requires at_in_bounds { at ≤ length s.now }
    requires slot_in_bounds { slot + 1 ≤ length slots.old }
    ensures { ReadsTo address s.now at slots.old slot slots.new result }
{
    if s.len() - at < ADDRESS_OCTETS {
        return Err(Refusal::Cut);
    }
    slots[slot] = at as u64;
    Ok(at + ADDRESS_OCTETS)
}

// A length and as many octets: their offset, and the length.
fn read_string(s: &[u8], at: usize, slots: &mut [u64], slot: usize) -> Result<usize, Refusal>
    requires { slot + 2 ≤ length slots.old }
    ensures { ReadsTo string s.now at slots.old slot slots.new result }
{
    let (v, next) = read_number(s, at).ok_or(Refusal::Cut)?;
    if v > STRING_MOST {
        return Err(Refusal::TooLarge);
    }
    let size = v as usize;
    if s.len() - next < size {
        return Err(Refusal::Cut);
    }
    slots[slot] = next as u64;
    slots[slot + 1] = v;
    Ok(next + size)
}

// One field.
pub fn read_field(
    s: &[u8],
    at: usize,
    field: FieldType,
    slots: &mut [u64],
    slot: usize,
) -> Result<usize, Refusal>
    requires at_in_bounds { at ≤ length s.now }
    requires field_in_bounds { slot + width (field_of field) ≤ length slots.old }
    ensures { ReadsTo (field_of field) s.now at slots.old slot slots.new result }
{
    match field {
        FieldType::Number(most) => read_limited(s, at, most, slots, slot),
        FieldType::Address => read_address(s, at, slots, slot),
        FieldType::OctetString => read_string(s, at, slots, slot),
    }
}
