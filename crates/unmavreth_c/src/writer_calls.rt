// A request written, for C.
ghost use Rattle.address.specs.Address.{families_of, octets_of};
ghost use Rattle.asking.specs.Ask.{ask_of, clone_ask_of};
ghost use Rattle.asking.specs.Draft.{draft};
ghost use Rattle.clone_requests.specs.WrittenAny.{WrittenAnyAs};

use address::pair::Pair;
use asking::ask::AskOctets;
use host::chain::AddressList;
use requests::request::Written;

// Writes the request that is asked for to the start of `out`, which must have room for the longest one whatever is
// asked (`REQUEST_ROOM`, 564 octets); each yes or no in `ask` is an octet, of which 0 is no. Asking for everything
// writes 21 Notify payloads, which a peer may refuse: see `requests::request::write`. CLONE_IKE_SA_SUPPORTED and
// CLONE_IKE_SA are each written only alone.
#[unsafe(no_mangle)]
pub extern "C" fn unmavreth_write(
    ask: AskOctets,
    pair: Pair,
    addresses: AddressList,
    nat_source: &[u8],
    nat_destination: &[u8],
    cookie: &[u8],
    out: &mut [u8],
) -> Written
    ensures { let families = families_of addresses.list in
        let octets = octets_of addresses.list in
        let nat-source = nat_source.now in
        let nat-destination = nat_destination.now in
        let q = draft (ask_of ask) pair families octets nat-source nat-destination cookie.now in
        WrittenAnyAs (clone_ask_of ask) q out.old result out.new }
{
    host::writer::unmavreth_write(
        ask,
        pair,
        addresses,
        nat_source,
        nat_destination,
        cookie,
        out,
    )
}
