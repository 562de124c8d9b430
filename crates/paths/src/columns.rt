// A path as the numbers that a host lends in columns, since it lends no enum and no bool.
ghost use Rattle.std.specs.Prelude.{◌≡◌};
ghost use Rattle.paths.specs.Columns.{event_of, kind_of, milliseconds_of, path_of};

use crate::path::{LastEvent, Path};
use octets::flag::is_yes;

// A round trip, and a loss; every other number is nothing heard.
pub const ROUND_TRIP: u8 = 1;

pub const LOSS: u8 = 2;

impl LastEvent {
    pub fn lent(kind: u8, milliseconds: f64) -> LastEvent
        ensures { result ≡ event_of kind milliseconds }
    {
        match kind {
            ROUND_TRIP => LastEvent::RoundTrip(milliseconds),
            LOSS => LastEvent::Loss(milliseconds),
            _ => LastEvent::Nothing,
        }
    }

    pub fn kind(self) -> u8
        ensures { result ≡ kind_of self }
    {
        match self {
            LastEvent::Nothing => 0,
            LastEvent::RoundTrip(_) => ROUND_TRIP,
            LastEvent::Loss(_) => LOSS,
        }
    }

    pub fn milliseconds(self) -> f64
        ensures { result ≡ milliseconds_of self }
    {
        match self {
            LastEvent::Nothing => 0.0,
            LastEvent::RoundTrip(milliseconds) | LastEvent::Loss(milliseconds) => milliseconds,
        }
    }
}

impl Path {
    pub fn lent(kind: u8, sampled: u8, milliseconds: f64, smoothed: f64, spread: f64) -> Path
        ensures { result ≡ path_of kind sampled milliseconds smoothed spread }
    {
        Path {
            smoothed,
            spread,
            sampled: is_yes(sampled),
            last: LastEvent::lent(kind, milliseconds),
        }
    }
}
