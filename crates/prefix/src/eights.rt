// Eight octets as one number, so that one comparison is of eight octets.
ghost use Rattle.std.specs.Prelude.{◌≡◌, ◌+◌, ◌≤◌};
ghost use Rattle.octets.specs.Limits.{address_octets};
ghost use Rattle.prefix.specs.Eights.{eight_at};

use octets::limits::ADDRESS_OCTETS;

// Eight octets from i on as one number, the first the lowest. It compiles to one load.
pub fn eight_at(octets: [u8; ADDRESS_OCTETS], i: usize) -> u64
    requires { i + 8 ≤ address_octets }
    ensures { result ≡ eight_at octets i }
{
    u64::from_le_bytes([
        octets[i],
        octets[i + 1],
        octets[i + 2],
        octets[i + 3],
        octets[i + 4],
        octets[i + 5],
        octets[i + 6],
        octets[i + 7],
    ])
}
