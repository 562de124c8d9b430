// The reader's answer: its number with its words, and what that means here.
use crate::print::{octets, payloads};
use crate::walk::Place;
use crate::why;
use crate::words::{number_words, reader_number};
use octets::limits::BODY_MOST;
use octets::number::Number;
use std::io;

// What is wrong at this place.
fn show_why(rt: &impl Print, number: Option<Number>, body: &[u8], place: Place) -> io::Result<()> {
    let payload = place.payload(body);
    match number {
        Some(Number::BadChainLength) => why::chain_length(rt, payload),
        Some(Number::BadNotify) => why::notify_shape(rt, payload),
        Some(Number::BadDataSize) => why::data_size(rt, payload),
        Some(Number::Repeated) => why::conflict(rt, payload, place.none_additional),
        Some(Number::OctetsAfterEnd) => {
            print!(rt; "{} after the end", octets(payload.octets.len()))
        }
        _ => print!(rt;
            "the critical payload type {} is not known",
            place.payload_type
        ),
    }
}

// What the number means here; `count` payloads stand before the place, or in all.
fn show_meaning(
    rt: &impl Print,
    number: Option<Number>,
    body: &[u8],
    place: Place,
    count: usize,
) -> io::Result<()> {
    match number {
        Some(Number::Done) => return print!(rt; "read whole: {}", payloads(count)),
        Some(Number::BodyTooLong) => {
            let size = octets(body.len());
            return print!(rt; "the body has {size}, at most {BODY_MOST} are allowed");
        }
        Some(Number::OctetsAfterEnd) => print!(rt; "behind {}", payloads(count))?,
        _ => print!(rt; "payload {count}")?,
    }
    print!(rt; " at offset {}: ", place.at)?;
    show_why(rt, number, body, place)
}

pub fn show_answer(
    rt: &impl Print,
    told: u8,
    body: &[u8],
    place: Place,
    count: usize,
) -> io::Result<()> {
    let number = reader_number(told);
    println!(rt; "answer {told}: {}", number_words(number))?;
    show_meaning(rt, number, body, place, count)?;
    println!(rt; " ({told})")
}
