// What a turn of the replay does with its input and output: reads behind what the window holds, and prints its line.
// No contract can say what is read: it is some octets, and how many is known. Where a writer says what it holds, the
// line is behind that.
#![tactic(auto)]

ghost use Rattle.std.specs.Prelude.{◌≡◌, ◌≤◌, length, IfOk, OnOk, OnErr};
ghost use Rattle.std.specs.Io.KnownBytes.{Appends};
ghost use Rattle.replaying.specs.Turns.{after, printed};
ghost use Rattle.replaying.specs.Held.{Reads, Advances, KeepsUnused};
ghost use Rattle.replaying.specs.Standing.{Standing};
ghost use Rattle.replaying.specs.declared.state.Turn.TheVariants.{More};

use given::outcome::Outcome;
use looking::look;
use printing::lines::LINE_ROOM;
use replaying::keep::keep;
use replaying::state::{State, Turn};
use std::io;
use std::io::{Read, Write};
use telling::put_line;
use turning::turn_after;

// Moves what is not used to the front of the window, and reads once behind it. Where the read fails, that is all that is
// left of the window.
fn read_more<R: Read>(input: &mut R, window: &mut [u8], s: State) -> io::Result<State>
    requires standing { Standing s }
    requires len_in_bounds { s.len ≤ length window.old }
    requires turn_value { s.turn ≡ More }
    ensures reads { IfOk result (λ r. Reads window.old s window.new r) }
    ensures stands { IfOk result (λ r. Standing r) }
    ensures size { IfOk result (λ r. r.len ≤ length window.old) }
    ensures failed { OnErr result (KeepsUnused window.old s window.new) }
{
    let kept = keep(window, s.at, s.len);
    let n = input.read(&mut window[kept..])?;
    Ok(s.refilled(kept, kept + n))
}

// Reads, where more is wanted, and looks at what stands next in the window; at the end, or after a refusal, neither.
// Only a read can fail, and then what was not used stands at the front of the window.
pub fn advance<R: Read>(input: &mut R, window: &mut [u8], s: State) -> io::Result<State>
    requires standing { Standing s }
    requires len_in_bounds { s.len ≤ length window.old }
    ensures advances { IfOk result (λ r. Advances window.old s window.new r) }
    ensures stands { IfOk result (λ r. Standing r) }
    ensures size { IfOk result (λ r. r.len ≤ length window.old) }
    ensures failed { OnErr result (KeepsUnused window.old s window.new) }
    ensures read { OnErr result (s.turn ≡ More) }
{
    match s.turn {
        Turn::More => {
            let n = read_more(input, window, s)?;
            Ok(look(&window[..n.len], n))
        }
        Turn::Call => Ok(look(&window[..s.len], s)),
        Turn::Refuse(_) => Ok(s),
        Turn::Show => Ok(s),
    }
}

// Prints the turn's line, and ends the turn. Where a write fails, some of the line may be printed.
pub fn report<W: Write>(output: &mut W, s: State, o: Outcome) -> io::Result<State>
    requires { Standing s }
    ensures value { IfOk result (λ r. r ≡ after s) }
    ensures stands { IfOk result (λ r. Standing r) }
    ensures size { IfOk result (λ r. r.len ≡ s.len) }
    ensures line { OnOk result (Appends (W.contents output.old) (W.contents output.new) (printed s o)) }
{
    let mut line = [0u8; LINE_ROOM];
    let n = put_line(&mut line, s, o);
    output.write_all(&line[..n])?;
    Ok(turn_after(s))
}
