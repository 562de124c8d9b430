// What is wrong at a payload, in words.
use crate::fields::Payload;
use crate::print::octets;
use crate::words::notify_name;
use notify::notify::NotifyType;
use octets::limits::{
    COOKIE_LEAST, COOKIE_MOST, IP4_OCTETS, IP6_OCTETS, NAT_OCTETS, NO_NATS_LEAST, NO_NATS_MOST,
    NOTIFY_HEADER, PAYLOAD_HEADER,
};
use std::io;

// Under a header's octets are left, or the length is under a header's or past the end.
pub fn chain_length(rt: &impl Print, payload: Payload<'_>) -> io::Result<()> {
    let left = octets(payload.octets.len());
    let length = octets(payload.length());
    if payload.octets.len() < PAYLOAD_HEADER {
        print!(rt; "{left} left, at least {PAYLOAD_HEADER} are needed")
    } else if payload.length() < PAYLOAD_HEADER {
        print!(rt; "the length is {length}, at least {PAYLOAD_HEADER} are needed")
    } else {
        print!(rt; "the length is {length}, past the end: {left} left")
    }
}

// A Notify shorter than its header, an SPI past its length, or one where its type has none.
pub fn notify_shape(rt: &impl Print, payload: Payload<'_>) -> io::Result<()> {
    let length = payload.length();
    if length < NOTIFY_HEADER {
        return print!(rt;
            "a Notify of {}, at least {NOTIFY_HEADER} are needed",
            octets(length)
        );
    }
    let name = notify_name(payload.notify_type());
    print!(rt; "{name} has an SPI of {}", octets(payload.spi_size()))?;
    if length - NOTIFY_HEADER < payload.spi_size() {
        print!(rt; ", past its length of {length}")
    } else {
        print!(rt; ", none is allowed")
    }
}

// The data octets that a notify type may have.
fn show_allowed(rt: &impl Print, notify_type: u16) -> io::Result<()> {
    match notify_type {
        NotifyType::NAT_DETECTION_SOURCE_IP | NotifyType::NAT_DETECTION_DESTINATION_IP => {
            print!(rt; "{NAT_OCTETS} are allowed")
        }
        NotifyType::ADDITIONAL_IP4_ADDRESS => print!(rt; "{IP4_OCTETS} are allowed"),
        NotifyType::ADDITIONAL_IP6_ADDRESS => print!(rt; "{IP6_OCTETS} are allowed"),
        NotifyType::COOKIE2 => print!(rt; "{COOKIE_LEAST} to {COOKIE_MOST} are allowed"),
        NotifyType::NO_NATS_ALLOWED => {
            print!(rt; "{NO_NATS_LEAST} or {NO_NATS_MOST} are allowed")
        }
        _ => print!(rt; "none is allowed"),
    }
}

// A size that the type does not have.
pub fn data_size(rt: &impl Print, payload: Payload<'_>) -> io::Result<()> {
    let notify_type = payload.notify_type();
    let name = notify_name(notify_type);
    print!(rt; "{name} has {}, ", octets(payload.data().len()))?;
    show_allowed(rt, notify_type)
}

// A second one of its type, or NO_ADDITIONAL_ADDRESSES and an address.
pub fn conflict(rt: &impl Print, payload: Payload<'_>, none_additional: bool) -> io::Result<()> {
    let notify_type = payload.notify_type();
    let name = notify_name(notify_type);
    match notify_type {
        NotifyType::ADDITIONAL_IP4_ADDRESS | NotifyType::ADDITIONAL_IP6_ADDRESS => {
            print!(rt; "{name} beside NO_ADDITIONAL_ADDRESSES")
        }
        NotifyType::NO_ADDITIONAL_ADDRESSES if !none_additional => {
            print!(rt; "{name} beside an additional address")
        }
        _ => print!(rt; "a second {name}"),
    }
}
