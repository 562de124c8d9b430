// A gateway as a notification names it: the new one in a REDIRECT, the old one in a REDIRECTED_FROM.
ghost use Rattle.std.specs.Prelude.{◌≡◌};
ghost use Rattle.redirect.specs.Gateway.{read_told, written_told};

use octets::number::Number;

// Only a REDIRECT may have a name (FQDN) for an identity, and a nonce behind it; who writes a REDIRECTED_FROM leaves the
// nonce empty.
#[derive(Clone, Copy, PartialEq, Eq, Debug)]
pub enum Notification {
    Redirect,
    RedirectedFrom,
}

// The type of its identity as it stands in the data, the identity and the nonce; an empty nonce is none.
#[derive(Clone, Copy)]
pub struct Gateway<'a> {
    pub identity_type: u8,
    pub identity: &'a [u8],
    pub nonce: &'a [u8],
}

// What is told of a REDIRECT or a REDIRECTED_FROM; with a refusal the type is 0.
#[repr(C)]
#[derive(Clone, Copy)]
pub struct GatewayRead {
    pub number: u8,
    pub identity_type: u8,
}

// The number, and how many octets were written: none with a refusal.
#[repr(C)]
#[derive(Clone, Copy)]
pub struct DataWritten {
    pub number: u8,
    pub length: usize,
}

impl From<Result<Gateway<'_>, Number>> for GatewayRead {
    ghost from_gives = { λ read told. told ≡ read_told read };

    fn from(read: Result<Gateway<'_>, Number>) -> GatewayRead {
        match read {
            Ok(gateway) => GatewayRead {
                number: u8::from(Number::Done),
                identity_type: gateway.identity_type,
            },
            Err(number) => GatewayRead {
                number: u8::from(number),
                identity_type: 0,
            },
        }
    }
}

impl From<Result<usize, Number>> for DataWritten {
    ghost from_gives = { λ written told. told ≡ written_told written };

    fn from(written: Result<usize, Number>) -> DataWritten {
        match written {
            Ok(length) => DataWritten {
                number: u8::from(Number::Done),
                length,
            },
            Err(number) => DataWritten {
                number: u8::from(number),
                length: 0,
            },
        }
    }
}
