// A clone request answered, for C.
ghost use Rattle.std.specs.Prelude.{length};
ghost use Rattle.cloning.specs.Clone.{clone_request, ClonedAs};

use cloning::clone::CloneReply;
use octets::limits::IKE_PLACES;
use records::ike::IkeRecord;

// Answers a CREATE_CHILD_SA request that rekeys an IKE SA: the response goes to the start of `out`, and what is past it
// stays as it was. Done, the clone stands at the lowest free place; a refusal changes no record. No IPsec list is lent:
// a clone owns none.
#[unsafe(no_mangle)]
pub extern "C" fn unmavreth_clone(
    ike: &mut [IkeRecord; IKE_PLACES],
    spi: u64,
    new_spi: u64,
    first: u8,
    body: &[u8],
    out: &mut [u8],
    operator: u8,
) -> CloneReply
    ensures { let room = length out.old in
        let q = clone_request spi new_spi first body.now room operator in
        ClonedAs ike.old q out.old result ike.new out.new }
{
    host_clone::unmavreth_clone(ike, spi, new_spi, first, body, out, operator)
}
