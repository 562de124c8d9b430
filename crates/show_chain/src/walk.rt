// The walk along the payloads that the reader found to have no fault, by their headers alone.
use crate::fields::Payload;
use crate::lines::show_payload;
use notify::notify::NotifyType;
use octets::wire::NOTIFY_PAYLOAD;
use std::io;

// Where a payload stands, its type, and whether NO_ADDITIONAL_ADDRESSES stands before it.
#[derive(Clone, Copy)]
pub struct Place {
    pub at: usize,
    pub payload_type: u8,
    pub none_additional: bool,
}

impl Place {
    fn start(first: u8) -> Place {
        Place {
            at: 0,
            payload_type: first,
            none_additional: false,
        }
    }

    // The payload that stands here.
    pub fn payload(self, body: &[u8]) -> Payload<'_> {
        Payload {
            octets: body.get(self.at..).unwrap_or(&[]),
        }
    }

    // The place behind this one, at the body's end at most.
    fn next(self, body: &[u8]) -> Place {
        let payload = self.payload(body);
        let here = self.payload_type == NOTIFY_PAYLOAD
            && payload.notify_type() == NotifyType::NO_ADDITIONAL_ADDRESSES;
        Place {
            at: self.at.saturating_add(payload.length()).min(body.len()),
            payload_type: payload.next_type(),
            none_additional: self.none_additional || here,
        }
    }
}

// Shows so many payloads from the body's front on, and tells the place behind them.
pub fn show_payloads(rt: &impl Print, body: &[u8], first: u8, count: usize) -> io::Result<Place> {
    let mut place = Place::start(first);
    for ordinal in 0..count {
        show_payload(rt, body, place, ordinal)?;
        place = place.next(body);
    }
    Ok(place)
}
