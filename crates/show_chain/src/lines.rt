// The line of one payload.
use crate::print::{Hex, octets};
use crate::walk::Place;
use crate::words::{notify_name, payload_name};
use octets::wire::NOTIFY_PAYLOAD;
use std::io;

// The octets in hex, behind a colon, if there are any.
fn show_data(rt: &impl Print, data: &[u8]) -> io::Result<()> {
    if data.is_empty() {
        println!(rt; "")
    } else {
        println!(rt; ": {}", Hex(data))
    }
}

// The payload of this ordinal, at its place. A Notify has its type, its length, its SPI if it has one, and its data.
pub fn show_payload(rt: &impl Print, body: &[u8], place: Place, ordinal: usize) -> io::Result<()> {
    let payload = place.payload(body);
    let length = octets(payload.length());
    let name = payload_name(place.payload_type);
    print!(rt; "{ordinal} at {}: {name}", place.at)?;
    if place.payload_type != NOTIFY_PAYLOAD {
        print!(rt; ", {length}")?;
        return show_data(rt, payload.content());
    }
    let spi = payload.spi();
    print!(rt; " {}, {length}", notify_name(payload.notify_type()))?;
    if !spi.is_empty() {
        print!(rt; ", SPI {}", Hex(spi))?;
    }
    show_data(rt, payload.data())
}
