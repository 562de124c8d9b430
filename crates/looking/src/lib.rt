// What the window says of the next turn.
#![tactic(auto)]

ghost use Rattle.std.specs.Prelude.{◌≡◌, ◌≤◌, length};
ghost use Rattle.given.specs.declared.reading.Asked.TheVariants.{ShowIke};
ghost use Rattle.replaying.specs.Turns.{looked, turning, no_slots, slots_for};
ghost use Rattle.replaying.specs.Standing.{Standing};

use entries::ENTRY_SLOTS;
use given::reading::{Asked, Slots};
use replaying::state::{State, Turn};
use windows::{Next, next_entry};

// Where no call is to be made a record is looked at, which changes nothing.
fn no_call(s: State, turn: Turn) -> State
    ensures { result ≡ turning s turn s.next (slots_for ShowIke no_slots) }
{
    let entry = Slots {
        asked: Asked::ShowIke,
        slots: [0u64; ENTRY_SLOTS],
    };
    s.in_turn(turn, s.next, entry)
}

// Looks at what stands next in the window.
pub fn look(window: &[u8], s: State) -> State
    requires standing { Standing s }
    requires len_value { s.len ≡ length window.now }
    ensures value { result ≡ looked window.now s }
    ensures stands { Standing result }
    ensures size { result.len ≡ s.len }
{
    let mut slots = [0u64; ENTRY_SLOTS];
    match next_entry(window, s.at, s.ended, &mut slots) {
        Ok(Next::Entry(kind, next)) => {
            let asked = Asked::Entry(kind);
            s.in_turn(Turn::Call, next, Slots { asked, slots })
        }
        Ok(Next::More) => no_call(s, Turn::More),
        Ok(Next::End) => no_call(s, Turn::Show),
        Err(why) => no_call(s, Turn::Refuse(u8::from(why))),
    }
}
