// The exchange that a REDIRECT came in.
ghost use Rattle.std.specs.Prelude.{◌≡◌};
ghost use Rattle.redirecting.specs.Exchange.{exchange_of, is_init, allows};

#[derive(Clone, Copy, PartialEq, Eq, Debug)]
pub enum Exchange {
    SaInit,
    FirstAuth,
    MiddleAuth,
    LastAuth,
    Informational,
    Other,
}

// By the number that a host gives.
impl From<u8> for Exchange {
    ghost from_gives = { λ number exchange. exchange ≡ exchange_of number };

    #[tactic(auto, unfolding(crate::specs::Exchange::exchange_of))]
    fn from(number: u8) -> Exchange {
        match number {
            0 => Exchange::SaInit,
            1 => Exchange::FirstAuth,
            2 => Exchange::MiddleAuth,
            3 => Exchange::LastAuth,
            4 => Exchange::Informational,
            _ => Exchange::Other,
        }
    }
}

impl Exchange {
    // Whether it is the one in which the nonce is sent back.
    pub fn is_init(self) -> bool
        ensures { result ≡ is_init self }
    {
        self == Exchange::SaInit
    }

    // Whether a REDIRECT may come in it.
    pub fn allows(self) -> bool
        ensures { result ≡ allows self }
    {
        !matches!(self, Exchange::MiddleAuth | Exchange::Other)
    }
}
