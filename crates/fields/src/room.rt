// What is left of the room of an output, as octets.
ghost use Rattle.std.specs.Prelude.{◌≡◌};
ghost use Rattle.fields.specs.Writing.{less_by, unfit_number};

// Why nothing is written.
#[derive(Clone, Copy, Debug, PartialEq, Eq)]
pub enum Unfit {
    // the output
    TooShort,
    // a value, for its field
    TooLarge,
}

// As it is told.
impl From<Unfit> for u8 {
    ghost from_gives = { λ why told. told ≡ unfit_number why };

    fn from(why: Unfit) -> u8 {
        match why {
            Unfit::TooShort => 2,
            Unfit::TooLarge => 22,
        }
    }
}

// So many octets more.
pub fn less_by(size: usize, room: Result<usize, Unfit>) -> Result<usize, Unfit>
    ensures { result ≡ less_by size room }
{
    room?.checked_sub(size).ok_or(Unfit::TooShort)
}
