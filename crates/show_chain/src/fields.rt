// The fields of a payload, by the octets from its first on. Each is 0 where the octets do not reach: nothing here is
// asked of what the reader found, so that a fault can be looked at as well.
ghost use Rattle.std.specs.Prelude.{◌<◌};

use octets::limits::{NOTIFY_HEADER, PAYLOAD_HEADER};

// The octets from a payload's first on, up to the end of the body.
#[derive(Clone, Copy)]
pub struct Payload<'a> {
    pub octets: &'a [u8],
}

// A number of two octets, high octet first.
fn number_of(octets: &[u8]) -> u16 {
    match octets {
        [high, low] => u16::from_be_bytes([*high, *low]),
        _ => 0,
    }
}

impl<'a> Payload<'a> {
    // The octets from `from` up to `to`, or up to their end.
    fn part(self, from: usize, to: usize) -> &'a [u8] {
        let end = to.min(self.octets.len());
        self.octets.get(from..end).unwrap_or(&[])
    }

    pub fn next_type(self) -> u8 {
        self.octets.first().copied().unwrap_or(0)
    }

    pub fn length(self) -> usize {
        usize::from(number_of(self.part(2, 4)))
    }

    pub fn spi_size(self) -> usize
        ensures { result < 256 }
    {
        usize::from(self.octets.get(5).copied().unwrap_or(0))
    }

    pub fn notify_type(self) -> u16 {
        number_of(self.part(6, 8))
    }

    // What stands behind the header.
    pub fn content(self) -> &'a [u8] {
        self.part(PAYLOAD_HEADER, self.length())
    }

    // The SPI of a Notify.
    pub fn spi(self) -> &'a [u8] {
        let end = NOTIFY_HEADER + self.spi_size();
        self.part(NOTIFY_HEADER, end.min(self.length()))
    }

    // The data of a Notify.
    pub fn data(self) -> &'a [u8] {
        self.part(NOTIFY_HEADER + self.spi_size(), self.length())
    }
}
