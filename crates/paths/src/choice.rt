// The choice among paths: whether a path takes the place of the best so far, and what is told in the end.
ghost use Rattle.std.specs.Prelude.{◌≡◌};
ghost use Rattle.paths.specs.Best.{is_quicker, choice_told};

use octets::number::Number;

// With 50 and 52 the ordinal is 0.
#[repr(C)]
#[derive(Clone, Copy)]
pub struct PathChoice {
    pub number: u8,
    pub ordinal: u32,
}

impl From<Result<u32, Number>> for PathChoice {
    ghost from_gives = { λ chosen told. told ≡ choice_told chosen };

    fn from(chosen: Result<u32, Number>) -> PathChoice {
        match chosen {
            Ok(ordinal) => PathChoice {
                number: u8::from(Number::Done),
                ordinal,
            },
            Err(number) => PathChoice {
                number: u8::from(number),
                ordinal: 0,
            },
        }
    }
}

// Whether a smoothed round trip takes the place of the best so far, which is an ordinal with its smoothed round trip.
pub fn is_quicker(best: Option<(u32, f64)>, smoothed: f64) -> bool
    ensures { result ≡ is_quicker best smoothed }
{
    !smoothed.is_nan() && best.is_none_or(|(_, least)| smoothed < least)
}
