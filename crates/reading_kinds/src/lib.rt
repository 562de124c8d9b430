// The fields of a kind of entry, read at an offset of a lent buffer. What is read goes to lent slots. (`sizing_kinds` and
// `writing_kinds` go over the same tables; a trait of what is done with one, with a law for each, would be longer.)
#![tactic(auto)]

pub mod tables;

ghost use Rattle.std.specs.Prelude.{◌≤◌, length};
ghost use Rattle.fields.specs.Codes.{ReadsTo};
ghost use Rattle.entries.specs.Kinds.{fields_of};
ghost use Rattle.entries.specs.Slots.{entry_slots};

use crate::tables::{
    ADD_IPSEC, CHECK_RESPONSE, CLONE, CLOSE_IKE, CLOSE_IPSEC, DELETION_MARK, OPEN_BOTH, POLICY,
    REQUEST,
};
use entries::kind::Kind;
use fields::refusal::Refusal;
use reading_lists::read_listed;
use reading_tables::read_table;

pub fn read_fields(kind: Kind, s: &[u8], at: usize, slots: &mut [u64]) -> Result<usize, Refusal>
    requires { (at ≤ length s.now) × (entry_slots ≤ length slots.old) }
    ensures { ReadsTo (fields_of kind) s.now at slots.old 0 slots.new result }
{
    match kind {
        Kind::OpenBoth => read_table(s, at, &OPEN_BOTH, slots, 0),
        Kind::AddIpsec => read_table(s, at, &ADD_IPSEC, slots, 0),
        Kind::CloseIke => read_table(s, at, &CLOSE_IKE, slots, 0),
        Kind::CloseIpsec => read_table(s, at, &CLOSE_IPSEC, slots, 0),
        Kind::Request => read_table(s, at, &REQUEST, slots, 0),
        Kind::Policy => read_listed(s, at, POLICY, slots, 0),
        Kind::CheckResponse => read_table(s, at, &CHECK_RESPONSE, slots, 0),
        Kind::Clone => read_table(s, at, &CLONE, slots, 0),
        Kind::MarkDeletion => read_table(s, at, &DELETION_MARK, slots, 0),
    }
}
