// What the fields of a kind of entry leave of the room of an output.
#![tactic(auto)]

ghost use Rattle.std.specs.Prelude.{◌≡◌, ◌≤◌, length};
ghost use Rattle.fields.specs.Writing.{room_in};
ghost use Rattle.entries.specs.Kinds.{fields_of};
ghost use Rattle.entries.specs.Slots.{entry_slots};

use entries::kind::Kind;
use fields::lent_values::LentValues;
use fields::room::Unfit;
use reading_kinds::tables::{
    ADD_IPSEC, CHECK_RESPONSE, CLONE, CLOSE_IKE, CLOSE_IPSEC, DELETION_MARK, OPEN_BOTH, POLICY,
    REQUEST,
};
use sizing_tables::{listed_room, table_room};

pub fn fields_room(
    kind: Kind,
    slots: &[u64],
    source: &[u8],
    room: Result<usize, Unfit>,
) -> Result<usize, Unfit>
    requires { entry_slots ≤ length slots.now }
    ensures { result ≡ room_in (fields_of kind) source.now slots.now room }
{
    let values = LentValues { slots, source };
    match kind {
        Kind::OpenBoth => table_room(&OPEN_BOTH, values, 0, room),
        Kind::AddIpsec => table_room(&ADD_IPSEC, values, 0, room),
        Kind::CloseIke => table_room(&CLOSE_IKE, values, 0, room),
        Kind::CloseIpsec => table_room(&CLOSE_IPSEC, values, 0, room),
        Kind::Request => table_room(&REQUEST, values, 0, room),
        Kind::Policy => listed_room(POLICY, values, 0, room),
        Kind::CheckResponse => table_room(&CHECK_RESPONSE, values, 0, room),
        Kind::Clone => table_room(&CLONE, values, 0, room),
        Kind::MarkDeletion => table_room(&DELETION_MARK, values, 0, room),
    }
}
