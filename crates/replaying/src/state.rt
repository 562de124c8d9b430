// Where a replay stands between two turns.
ghost use Rattle.std.specs.Prelude.{◌≡◌};
ghost use Rattle.replaying.specs.Turns.{start, turning, refilled};
ghost use Rattle.replaying.specs.Standing.{Standing};

use entries::ENTRY_SLOTS;
use entries::kind::Kind;
use given::reading::{Asked, Slots};

// What a turn is for.
#[derive(Clone, Copy)]
pub enum Turn {
    // more of the trace is read
    More,
    // an entry's call is made
    Call,
    // an entry is refused, by this number
    Refuse(u8),
    // the record at a place is shown
    Show,
}

// No invariant says that it is `Standing`: `refilled` and `turning` (specs/Turns.antt, under the theorem Replays) make
// states of any numbers.
#[derive(Clone, Copy)]
pub struct State {
    // what the window holds, the first octet of it that is not used, and the offset after the entry that is looked at
    pub len: usize,
    pub at: usize,
    pub next: usize,
    // nothing comes after the window
    pub ended: bool,
    // of the entry that is next: its offset in the trace, and its ordinal
    pub offset: u64,
    pub ordinal: u64,
    pub turn: Turn,
    pub entry: Slots,
    pub going: bool,
}

impl State {
    // Nothing is read yet.
    pub fn begin() -> State
        ensures value { result ≡ start }
        ensures stands { Standing result }
    {
        State {
            len: 0,
            at: 0,
            next: 0,
            ended: false,
            offset: 0,
            ordinal: 0,
            turn: Turn::More,
            entry: Slots {
                asked: Asked::Entry(Kind::OpenBoth),
                slots: [0u64; ENTRY_SLOTS],
            },
            going: true,
        }
    }

    // The state in a turn, with the entry that it is for and the offset after that.
    pub fn in_turn(self, turn: Turn, next: usize, entry: Slots) -> State
        ensures { result ≡ turning self turn next entry }
    {
        State {
            turn,
            next,
            entry,
            ..self
        }
    }

    // The state with more in the window: what was not used is at its front, and `len` octets are in it.
    pub fn refilled(self, kept: usize, len: usize) -> State
        ensures { result ≡ refilled self kept len }
    {
        State {
            at: 0,
            len,
            ended: len == kept,
            ..self
        }
    }
}
