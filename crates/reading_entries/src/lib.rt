// One entry, read at an offset of a lent buffer. Its values go to lent slots, in the order of its fields.
#![tactic(auto)]

ghost use Rattle.std.specs.Prelude.{◌≡◌, ◌≤◌, length};
ghost use Rattle.writing.specs.Notify.{placed};
ghost use Rattle.fields.specs.Reading.{slots_of};
ghost use Rattle.entries.specs.Entries.{entry_at, entry_step};
ghost use Rattle.entries.specs.Slots.{entry_slots};

use entries::kind::Kind;
use fields::refusal::Refusal;
use leb128::read_number;
use reading_kinds::read_fields;

// The entry at `at`: its kind, and the offset after it.
pub fn read_entry(s: &[u8], at: usize, slots: &mut [u64]) -> Result<(Kind, usize), Refusal>
    requires { entry_slots ≤ length slots.old }
    ensures { let reading = entry_at s.now at in
        (result ≡ entry_step reading) × (slots.new ≡ placed slots.old 0 (slots_of reading)) }
{
    let (number, next) = read_number(s, at).ok_or(Refusal::Cut)?;
    let kind = Kind::try_from(number)?;
    let end = read_fields(kind, s, next, slots)?;
    Ok((kind, end))
}
