// What is given on standard input: hex digits or octets.
ghost use Rattle.std.specs.Prelude.{◌<◌, IfSome};

fn is_space(octet: u8) -> bool {
    matches!(octet, b' ' | b'\t' | b'\r' | b'\n')
}

// The value of a hex digit.
fn digit_of(octet: u8) -> Option<u8>
    ensures { IfSome result (λ digit. digit < 16) }
{
    match octet {
        b'0'..=b'9' => Some(octet - b'0'),
        b'a'..=b'f' => Some(octet - b'a' + 10),
        b'A'..=b'F' => Some(octet - b'A' + 10),
        _ => None,
    }
}

// The octet of two digits.
fn octet_of(high: u8, low: u8) -> Option<u8> {
    Some(digit_of(high)? * 16 + digit_of(low)?)
}

// Whether there are only hex digits and white space.
pub fn is_hex(given: &[u8]) -> bool {
    given
        .iter()
        .all(|octet| is_space(*octet) || digit_of(*octet).is_some())
}

// The octets that the digits stand for, at the front of the room; none where half an octet is left over. White space
// may stand anywhere.
pub fn decode<'a>(given: &[u8], room: &'a mut [u8]) -> Option<&'a [u8]> {
    let mut digits = given.iter().filter(|octet| !is_space(**octet));
    let mut count = 0;
    for place in room.iter_mut() {
        let Some(high) = digits.next() else {
            break;
        };
        *place = octet_of(*high, *digits.next()?)?;
        count += 1;
    }
    Some(&room[..count])
}
