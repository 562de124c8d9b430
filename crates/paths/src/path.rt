// One path: what was last heard on it, its smoothed round trip and the spread.
ghost use Rattle.std.specs.Prelude.{◌≡◌};
ghost use Rattle.paths.specs.Update.{deviation_of, first_path, later_path, sampled_path, lost_path};

// What was last heard, with its milliseconds: how long the round trip took, or how long was waited.
#[derive(Clone, Copy, PartialEq, Debug)]
pub enum LastEvent {
    Nothing,
    RoundTrip(f64),
    Loss(f64),
}

// `sampled` tells whether a round trip was ever taken: neither the last event, which may be a loss, nor the two
// numbers, which a first round trip of 0 leaves at 0, would tell.
#[derive(Clone, Copy, PartialEq, Debug)]
pub struct Path {
    pub smoothed: f64,
    pub spread: f64,
    pub sampled: bool,
    pub last: LastEvent,
}

// How far a round trip is from the smoothed one. Not by `abs`: the proof would need that rounding is the same on both
// sides of 0, which the library does not say.
fn deviation(smoothed: f64, r: f64) -> f64
    ensures { result ≡ deviation_of smoothed r }
{
    if smoothed > r {
        smoothed - r
    } else {
        r - smoothed
    }
}

impl Path {
    // The path after its first round trip.
    fn first(r: f64) -> Path
        ensures { result ≡ first_path r }
    {
        Path {
            smoothed: r,
            spread: r / 2.0,
            sampled: true,
            last: LastEvent::RoundTrip(r),
        }
    }

    // The path after a later one. The spread goes by the smoothed round trip from before.
    fn later(self, r: f64) -> Path
        ensures { result ≡ later_path self r }
    {
        Path {
            smoothed: 0.875 * self.smoothed + 0.125 * r,
            spread: 0.75 * self.spread + 0.25 * deviation(self.smoothed, r),
            sampled: true,
            last: LastEvent::RoundTrip(r),
        }
    }

    // The path after a round trip of so many milliseconds.
    pub fn after_sample(self, milliseconds: u32) -> Path
        ensures { result ≡ sampled_path self milliseconds }
    {
        let r = f64::from(milliseconds);
        if self.sampled {
            self.later(r)
        } else {
            Path::first(r)
        }
    }

    // The path after a loss, noticed when so many milliseconds had passed.
    pub fn after_loss(self, milliseconds: u32) -> Path
        ensures { result ≡ lost_path self milliseconds }
    {
        Path {
            last: LastEvent::Loss(f64::from(milliseconds)),
            ..self
        }
    }
}
