// What a turn of a replay prints.
#![tactic(auto)]

ghost use Rattle.std.specs.Prelude.{◌≡◌, ◌≤◌, length};
ghost use Rattle.writing.specs.Notify.{placed};
ghost use Rattle.printing.specs.Lines.{line_room};
ghost use Rattle.replaying.specs.Turns.{printed, pair_at};

use given::outcome::Outcome;
use given::reading::Asked;
use printing::lines::{put_entry_line, put_pair_line, put_refusal_line};
use replaying::state::{State, Turn};

// Puts the line of a record's pair; of a free place nothing.
#[tactic(auto, using(writing::proofs::Placed::placed_none))]
fn put_pair(line: &mut [u8], ipsec: bool, o: Outcome) -> usize
    requires { line_room ≤ length line.old }
    ensures within { result ≤ line_room }
    ensures size { result ≡ length (pair_at ipsec o.spi o.pair) }
    ensures octets { line.new ≡ placed line.old 0 (pair_at ipsec o.spi o.pair) }
{
    if o.spi == 0 {
        return 0;
    }
    put_pair_line(line, ipsec, o.spi, o.pair)
}

// Puts what a turn prints at the front of a line, and returns how long that is.
#[tactic(auto, using(writing::proofs::Placed::placed_none))]
pub fn put_line(line: &mut [u8], s: State, o: Outcome) -> usize
    requires { line_room ≤ length line.old }
    ensures within { result ≤ line_room }
    ensures size { result ≡ length (printed s o) }
    ensures octets { line.new ≡ placed line.old 0 (printed s o) }
{
    match s.turn {
        Turn::More => 0,
        Turn::Call => put_entry_line(line, s.ordinal, o.number, o.update, o.list),
        Turn::Refuse(number) => put_refusal_line(line, number, s.offset),
        Turn::Show => put_pair(line, matches!(s.entry.asked, Asked::ShowIpsec), o),
    }
}
