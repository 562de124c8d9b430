// Why a trace is refused, by name.
ghost use Rattle.std.specs.Prelude.{◌≡◌};
ghost use Rattle.fields.specs.Refusals.{refusal_number};

#[derive(Clone, Copy, Debug, PartialEq, Eq)]
pub enum Refusal {
    // cut, or a number not shortest or past 64 bits
    Cut,
    UnknownKind,
    // a number, count or length too large for its field
    TooLarge,
}

// As it is told.
impl From<Refusal> for u8 {
    ghost from_gives = { λ why told. told ≡ refusal_number why };

    fn from(why: Refusal) -> u8 {
        match why {
            Refusal::Cut => 20,
            Refusal::UnknownKind => 21,
            Refusal::TooLarge => 22,
        }
    }
}
