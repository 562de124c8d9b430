// Reads standard input.
ghost use Rattle.std.specs.Prelude.{◌≤◌, IfOk, length};

use std::io;
use std::io::Read;

// Reads until the room is full or the input ends, and returns what it put at the front of the room. (`read_to_end` would
// want a heap, of which the C functions would be assumed beside `read` and `write`.)
pub fn read_full<'a, R: Read>(input: &mut R, room: &'a mut [u8]) -> io::Result<&'a [u8]>
    ensures { IfOk result (λ read. length read.now ≤ length room.old) }
{
    let mut done = 0;
    while done < room.len() {
        let n = input.read(&mut room[done..])?;
        if n == 0 {
            break;
        }
        done += n;
    }
    Ok(&room[..done])
}
