// Yes or no as an octet of what a host lends or passes.
ghost use Rattle.std.specs.Prelude.{◌≡◌};
ghost use Rattle.octets.specs.Flags.{is_yes, zero_or_one};

pub fn is_yes(flag: u8) -> bool
    ensures { result ≡ is_yes flag }
{
    flag != 0
}

// As it is stored.
pub fn zero_or_one(flag: u8) -> u8
    ensures { result ≡ zero_or_one flag }
{
    u8::from(is_yes(flag))
}
