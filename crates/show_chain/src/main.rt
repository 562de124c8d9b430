// Shows a payload chain to a person. Standard input has the first payload's type and then the body: hex digits in pairs
// if it has nothing but hex digits and white space, else the octets themselves.
//
// Prints a line for each payload up to the end or the first fault, its length counted with its header, and behind that
// the data or content in hex if there is any:
//     ORDINAL at OFFSET: Notify NAME, LENGTH octets: DATA
//     ORDINAL at OFFSET: Notify NAME, LENGTH octets, SPI OCTETS: DATA
//     ORDINAL at OFFSET: NAME, LENGTH octets: CONTENT
// where a type without a name is told as "type NUMBER";
// then the reader's number with the words that the interfaces for C and Rust have for it, and what that means here:
//     answer NUMBER: WORDS
//     payload ORDINAL at offset OFFSET: WHAT IS WRONG (NUMBER)
// Instead of the last line: "read whole: COUNT payloads (0)"; "behind COUNT payloads at offset OFFSET: .. (65)";
// "the body has COUNT octets, at most 4096 are allowed (3)".
#![tactic(auto)]

mod answer;
mod fields;
mod given;
mod input;
mod lines;
mod print;
mod walk;
mod why;
mod words;

use answer::show_answer;
use given::{decode, is_hex};
use input::read_full;
use std::io;
use walk::show_payloads;

// One octet more than may be given: digits and white space, or the octets themselves.
const ROOM: usize = 65536;

// The chain of these octets, of which the first is a type.
fn show_octets(rt: &impl Print, octets: &[u8]) -> io::Result<()> {
    let Some((first, body)) = octets.split_first() else {
        return println!(rt; "no input: give the first payload's type and then the body");
    };
    let reading = reader::read::read(*first, body);
    let payloads = if reading.number == 0 {
        reading.seen.tally.payloads
    } else {
        reading.ordinal
    };
    let place = show_payloads(rt, body, *first, usize::from(payloads))?;
    show_answer(rt, reading.number, body, place, usize::from(payloads))
}

// The octets that hex digits stand for, of which half an octet may be left over.
fn show_hex(rt: &impl Print, digits: &[u8]) -> io::Result<()> {
    let mut room = [0u8; ROOM];
    match decode(digits, &mut room) {
        Some(octets) => show_octets(rt, octets),
        None => println!(rt; "an odd number of hex digits"),
    }
}

fn main(rt: HostRuntime) -> io::Result<()> {
    let mut room = [0u8; ROOM];
    let given = read_full(&mut rt.stdin(), &mut room)?;
    if given.len() == ROOM {
        println!(rt; "too much input: at most 65535 octets are read")
    } else if is_hex(given) {
        show_hex(&rt, given)
    } else {
        show_octets(&rt, given)
    }
}
