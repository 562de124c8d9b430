// The lines: what one entry was answered, the refusal that a trace ends with, and one record's pair.
ghost use Rattle.std.specs.Prelude.{◌≡◌, ◌+◌, ◌≤◌, length};
ghost use Rattle.writing.specs.Notify.{placed};
ghost use Rattle.printing.specs.Lines.{entry_line, refusal_line, pair_words, pair_line, line_end, line_room};
ghost use Rattle.wording.specs.Puts.{Puts};

use address::pair::Pair;
use wording::chosen::{put_outcome, put_table};
use wording::hex::put_address;
use wording::number::{put_number, put_short};
use wording::word::put_word;

// What every line has room in. A longer buffer may be lent too, so that the room is asked by a clause and no type.
pub const LINE_ROOM: usize = 128;

const SPACE: u8 = b' ';

const LINE_END: u8 = b'\n';

// The line of an entry. Returns its length, as each of these does.
pub fn put_entry_line(out: &mut [u8], ordinal: u64, number: u8, update: u8, list: u8) -> usize
    requires { line_room ≤ length out.old }
    ensures within { result ≤ line_room }
    ensures size { result ≡ length (entry_line ordinal number update list) }
    ensures octets { out.new ≡ placed out.old 0 (entry_line ordinal number update list) }
{
    let a = put_number(out, 0, ordinal, SPACE);
    let b = put_short(out, a, number as u16, SPACE);
    let c = put_outcome(out, b, b"applied", update, SPACE);
    put_outcome(out, c, b"replaced", list, LINE_END)
}

// The line of a refusal, with the offset of the entry that was refused.
pub fn put_refusal_line(out: &mut [u8], number: u8, offset: u64) -> usize
    requires { line_room ≤ length out.old }
    ensures within { result ≤ line_room }
    ensures size { result ≡ length (refusal_line number offset) }
    ensures octets { out.new ≡ placed out.old 0 (refusal_line number offset) }
{
    let a = put_short(out, 0, number as u16, SPACE);
    let b = put_word(out, a, b"at", SPACE);
    put_number(out, b, offset, LINE_END)
}

// The words of a pair, at the end of a line.
fn put_pair(out: &mut [u8], at: usize, pair: Pair) -> usize
    requires { at + 84 ≤ length out.old }
    ensures upper_bound { result ≤ at + 84 }
    ensures puts { Puts (pair_words pair) line_end out.old at out.new result }
{
    let a = put_short(out, at, pair.family as u16, SPACE);
    let b = put_address(out, a, pair.source, SPACE);
    let c = put_address(out, b, pair.destination, SPACE);
    let d = put_short(out, c, pair.source_port, SPACE);
    put_short(out, d, pair.destination_port, LINE_END)
}

// The line of a record's pair.
pub fn put_pair_line(out: &mut [u8], ipsec: bool, spi: u64, pair: Pair) -> usize
    requires { line_room ≤ length out.old }
    ensures within { result ≤ line_room }
    ensures size { result ≡ length (pair_line ipsec spi pair) }
    ensures octets { out.new ≡ placed out.old 0 (pair_line ipsec spi pair) }
{
    let a = put_table(out, 0, ipsec, SPACE);
    let b = put_number(out, a, spi, SPACE);
    put_pair(out, b, pair)
}
