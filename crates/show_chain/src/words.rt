// The words for the reader's numbers, and the names of payload and notify types, as `host/words/words.txt` has them.
use notify::notify::NotifyType;
use octets::number::Number;
use std::fmt;

// The numbers that the reader gives.
const READER: [Number; 8] = [
    Number::Done,
    Number::BodyTooLong,
    Number::BadChainLength,
    Number::BadNotify,
    Number::BadDataSize,
    Number::Repeated,
    Number::OctetsAfterEnd,
    Number::UnknownCritical,
];

// The number of the reader that is told so.
pub fn reader_number(told: u8) -> Option<Number> {
    READER.iter().copied().find(|n| u8::from(*n) == told)
}

// The words for a number of the reader.
pub fn number_words(number: Option<Number>) -> &'static str {
    match number {
        Some(Number::Done) => "done",
        Some(Number::BodyTooLong) => "body too long",
        Some(Number::BadChainLength) => "a payload cut short or of a length that cannot be",
        Some(Number::BadNotify) => "a Notify of a length or with an SPI that cannot be",
        Some(Number::BadDataSize) => "notification data of a wrong size",
        Some(Number::Repeated) => "a repeated or contradictory notification",
        Some(Number::OctetsAfterEnd) => "octets after the end",
        Some(Number::UnknownCritical) => "unknown critical payload",
        _ => "not a number of the library",
    }
}

// A payload or notify type: its name, or its number where it has none here.
#[derive(Clone, Copy)]
pub struct Name {
    name: Option<&'static str>,
    number: u16,
}

impl fmt::Display for Name {
    fn fmt<W: fmt::Write>(&self, f: &mut fmt::Formatter<W>) -> fmt::Result {
        match self.name {
            Some(name) => write!(f, "{name}"),
            None => write!(f, "type {}", self.number),
        }
    }
}

pub fn notify_name(number: u16) -> Name {
    let name = match number {
        NotifyType::UNSUPPORTED_CRITICAL_PAYLOAD => Some("UNSUPPORTED_CRITICAL_PAYLOAD"),
        NotifyType::INVALID_SYNTAX => Some("INVALID_SYNTAX"),
        NotifyType::NO_ADDITIONAL_SAS => Some("NO_ADDITIONAL_SAS"),
        NotifyType::UNACCEPTABLE_ADDRESSES => Some("UNACCEPTABLE_ADDRESSES"),
        NotifyType::UNEXPECTED_NAT_DETECTED => Some("UNEXPECTED_NAT_DETECTED"),
        NotifyType::TEMPORARY_FAILURE => Some("TEMPORARY_FAILURE"),
        NotifyType::NAT_DETECTION_SOURCE_IP => Some("NAT_DETECTION_SOURCE_IP"),
        NotifyType::NAT_DETECTION_DESTINATION_IP => Some("NAT_DETECTION_DESTINATION_IP"),
        NotifyType::MOBIKE_SUPPORTED => Some("MOBIKE_SUPPORTED"),
        NotifyType::ADDITIONAL_IP4_ADDRESS => Some("ADDITIONAL_IP4_ADDRESS"),
        NotifyType::ADDITIONAL_IP6_ADDRESS => Some("ADDITIONAL_IP6_ADDRESS"),
        NotifyType::NO_ADDITIONAL_ADDRESSES => Some("NO_ADDITIONAL_ADDRESSES"),
        NotifyType::UPDATE_SA_ADDRESSES => Some("UPDATE_SA_ADDRESSES"),
        NotifyType::COOKIE2 => Some("COOKIE2"),
        NotifyType::NO_NATS_ALLOWED => Some("NO_NATS_ALLOWED"),
        NotifyType::CLONE_IKE_SA_SUPPORTED => Some("CLONE_IKE_SA_SUPPORTED"),
        NotifyType::CLONE_IKE_SA => Some("CLONE_IKE_SA"),
        _ => None,
    };
    Name { name, number }
}

// The names are those of RFC 7296, 3.2.
pub fn payload_name(number: u8) -> Name {
    let name = match number {
        33 => Some("Security Association"),
        34 => Some("Key Exchange"),
        35 => Some("Identification - Initiator"),
        36 => Some("Identification - Responder"),
        37 => Some("Certificate"),
        38 => Some("Certificate Request"),
        39 => Some("Authentication"),
        40 => Some("Nonce"),
        41 => Some("Notify"),
        42 => Some("Delete"),
        43 => Some("Vendor ID"),
        44 => Some("Traffic Selector - Initiator"),
        45 => Some("Traffic Selector - Responder"),
        46 => Some("Encrypted and Authenticated"),
        47 => Some("Configuration"),
        48 => Some("Extensible Authentication"),
        _ => None,
    };
    Name {
        name,
        number: u16::from(number),
    }
}
