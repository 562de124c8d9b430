// NO_NATS_ALLOWED's data, as a request carries it.
ghost use Rattle.std.specs.Prelude.{◌≡◌, replicate};
ghost use Rattle.octets.specs.Limits.{no_nats_most};
ghost use Rattle.writing.specs.Notify.{placed};
ghost use Rattle.asking.specs.Draft.{pair_octets};

use address::address::width_of;
use address::pair::Pair;
use octets::limits::NO_NATS_MOST;
use writing::copy_octets;

// In the first octets of an array: both addresses of the pair, in its family's octets, then the ports.
pub fn no_nats_octets(pair: Pair) -> [u8; NO_NATS_MOST]
    ensures { result ≡ placed (replicate no_nats_most 0) 0 (pair_octets pair) }
{
    let width = width_of(pair.family) as usize;
    let source_port = pair.source_port.to_be_bytes();
    let destination_port = pair.destination_port.to_be_bytes();
    let ports = [
        source_port[0],
        source_port[1],
        destination_port[0],
        destination_port[1],
    ];
    let mut octets = [0u8; NO_NATS_MOST];
    copy_octets(&mut octets, 0, &pair.source[..width]);
    copy_octets(&mut octets, width, &pair.destination[..width]);
    copy_octets(&mut octets, width + width, &ports);
    octets
}
