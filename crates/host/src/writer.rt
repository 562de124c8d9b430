// The call that writes a request.
ghost use Rattle.address.specs.Address.{families_of, octets_of};
ghost use Rattle.asking.specs.Ask.{ask_of, clone_ask_of};
ghost use Rattle.asking.specs.Draft.{draft};
ghost use Rattle.clone_requests.specs.WrittenAny.{WrittenAnyAs};

use crate::chain::AddressList;
use address::pair::Pair;
use asking::ask::{Ask, AskOctets, CloneAsk, Wanted};
use clone_requests::write::write_any;
use requests::request::Written;

// Writes the request that is asked for to the start of `out`, which must have room for the longest one whatever is
// asked (`REQUEST_ROOM`, 564 octets); each yes or no in `ask` is an octet, of which 0 is no. Asking for everything
// writes 21 Notify payloads, which a peer may refuse: see `requests::request::write`. CLONE_IKE_SA_SUPPORTED and
// CLONE_IKE_SA are each written only alone.
pub fn unmavreth_write(
    ask: AskOctets,
    pair: Pair,
    addresses: AddressList,
    nat_source: &[u8],
    nat_destination: &[u8],
    cookie: &[u8],
    out: &mut [u8],
) -> Written
    ensures { let families = families_of addresses.list in
        let octets = octets_of addresses.list in
        let nat-source = nat_source.now in
        let nat-destination = nat_destination.now in
        let q = draft (ask_of ask) pair families octets nat-source nat-destination cookie.now in
        WrittenAnyAs (clone_ask_of ask) q out.old result out.new }
{
    let wanted = Wanted {
        ask: Ask::from(ask),
        pair,
        addresses: &addresses.list,
        nat_source,
        nat_destination,
        cookie,
    };
    Written::from(write_any(CloneAsk::from(ask), wanted, out))
}
