// The number that a call gives, by name.
ghost use Rattle.std.specs.Prelude.{◌≡◌};
ghost use Rattle.octets.specs.Numbers.{number_of, told};

// In the order of 01's table, with 02's 61 to 65 in the place of its 6 and 02's later ones at the end.
#[derive(Clone, Copy, Debug, PartialEq, Eq)]
pub enum Number {
    Done,
    BadArgument,
    OutputTooShort,
    BodyTooLong,
    NoSuchRecord,
    MobikeNotAgreed,
    BadChainLength,
    BadNotify,
    BadDataSize,
    Repeated,
    OctetsAfterEnd,
    UnknownCritical,
    AddressesAltered,
    NotAcceptable,
    Full,
    SpiInUse,
    BadPolicy,
    CheckNotPending,
    BadRedirect,
    WrongExchange,
    WrongNonce,
    TimeBeforeLast,
    TooManyRedirects,
    CloningNotAgreed,
    CannotCloneNow,
    PeerAtLimit,
    OperatorAtShare,
    NoCloneRequest,
    NoSuchPath,
    TooManyMilliseconds,
    NoPathQualifies,
}

// As it is told.
impl From<Number> for u8 {
    ghost from_gives = { λ n told. told ≡ number_of n };

    fn from(n: Number) -> u8 {
        match n {
            Number::Done => 0,
            Number::BadArgument => 1,
            Number::OutputTooShort => 2,
            Number::BodyTooLong => 3,
            Number::NoSuchRecord => 4,
            Number::MobikeNotAgreed => 5,
            Number::BadChainLength => 61,
            Number::BadNotify => 62,
            Number::BadDataSize => 63,
            Number::Repeated => 64,
            Number::OctetsAfterEnd => 65,
            Number::UnknownCritical => 7,
            Number::AddressesAltered => 8,
            Number::NotAcceptable => 9,
            Number::Full => 10,
            Number::SpiInUse => 11,
            Number::BadPolicy => 12,
            Number::CheckNotPending => 14,
            Number::BadRedirect => 30,
            Number::WrongExchange => 31,
            Number::WrongNonce => 32,
            Number::TimeBeforeLast => 33,
            Number::TooManyRedirects => 34,
            Number::CloningNotAgreed => 40,
            Number::CannotCloneNow => 41,
            Number::PeerAtLimit => 42,
            Number::OperatorAtShare => 43,
            Number::NoCloneRequest => 44,
            Number::NoSuchPath => 50,
            Number::TooManyMilliseconds => 51,
            Number::NoPathQualifies => 52,
        }
    }
}

// The number that checks come to: 0 where none refuses.
pub fn told(checked: Result<(), Number>) -> u8
    ensures { result ≡ told checked }
{
    match checked {
        Ok(()) => u8::from(Number::Done),
        Err(number) => u8::from(number),
    }
}
