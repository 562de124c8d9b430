// The call that clones an IKE SA at its peer's request, on the lent IKE table (RFC 7791).
#![tactic(auto)]

ghost use Rattle.std.specs.Prelude.{length};
ghost use Rattle.cloning.specs.Clone.{clone_request, ClonedAs};

use clone_answers::clone_at;
use cloning::clone::{CloneLooked, CloneReply, LentCloneRequest};
use lent_ike::ike::{ike_at, ike_count, ike_peers, ike_place};
use octets::limits::IKE_PLACES;
use records::ike::IkeRecord;
use walks::store;

// Answers a CREATE_CHILD_SA request that rekeys an IKE SA: the response goes to the start of `out`, and what is past it
// stays as it was. Done, the clone stands at the lowest free place; a refusal changes no record. No IPsec list is lent:
// a clone owns none.
pub fn unmavreth_clone(
    ike: &mut [IkeRecord; IKE_PLACES],
    spi: u64,
    new_spi: u64,
    first: u8,
    body: &[u8],
    out: &mut [u8],
    operator: u8,
) -> CloneReply
    ensures { let room = length out.old in
        let q = clone_request spi new_spi first body.now room operator in
        ClonedAs ike.old q out.old result ike.new out.new }
{
    let request = LentCloneRequest {
        spi,
        new_spi,
        first,
        body,
        operator,
    };
    let place = ike_place(ike, spi);
    let entry = ike_at(ike, place);
    let looked = CloneLooked {
        place,
        entry,
        free: ike_place(ike, 0),
        taken: ike_place(ike, new_spi),
        records: ike_peers(ike, operator, entry.agreed.peer),
        own: ike_count(ike, operator),
    };
    let answer = clone_at(&looked, &request, out);
    if let Some(clone) = answer.clone {
        store(ike, looked.free, clone);
    }
    answer.reply
}
