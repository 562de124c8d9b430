// The calls on the notifications that move a client to another gateway (RFC 5685): their data, read and written, and
// the decision on a REDIRECT. A notification's number, and the chain that it stands in, are the host's.
ghost use Rattle.std.specs.Prelude.{◌≡◌, true, false, []};
ghost use Rattle.octets.specs.Checks.{first_failed};
ghost use Rattle.redirect.specs.Read.{supported_checks, RedirectReadAs, FromReadAs};
ghost use Rattle.redirect.specs.Write.{gateway_octets, unfit, DataWrittenAs};
ghost use Rattle.redirecting.specs.Times.{accepted};
ghost use Rattle.deciding_redirects.specs.Decision.{DecidedAs};

use deciding_redirects::{RedirectDecision, decide};
use octets::number::told;
use reading_redirects::{handed_out, read_gateway};
use redirect::gateway::{DataWritten, Gateway, GatewayRead, Notification};
use redirecting::limits::REDIRECTS_MOST;
use redirecting::times::Accepted;
use writing_redirects::write_gateway;

// Reads the data of a REDIRECT (16407), at the client: in an IKE_SA_INIT response, with the nonce that the client
// sent; in the first or the last IKE_AUTH response, or in an INFORMATIONAL request of the gateway, without one. The
// new gateway's identity and the nonce are handed out as parts of the data; empty if there is none.
#[tactic(auto, using(reading_redirects::proofs::Told::redirect_told))]
pub fn unmavreth_read_redirect<'s, 'a>(
    identity: &'s mut &'a [u8],
    nonce: &'s mut &'a [u8],
    data: &'a [u8],
) -> GatewayRead
    ensures { RedirectReadAs «data».entry result identity.new nonce.new }
{
    let read = read_gateway(Notification::Redirect, data);
    let gateway = handed_out(read, data);
    *identity = gateway.identity;
    *nonce = gateway.nonce;
    GatewayRead::from(read)
}

// Reads the data of a REDIRECTED_FROM (16408), at the gateway that a client was moved to: in an IKE_SA_INIT request.
// The identity of the gateway that it comes from is handed out as a part of the data; empty if there is none.
#[tactic(auto, using(reading_redirects::proofs::Told::from_told))]
pub fn unmavreth_read_redirected_from<'s, 'a>(
    identity: &'s mut &'a [u8],
    data: &'a [u8],
) -> GatewayRead
    ensures { FromReadAs «data».entry result identity.new }
{
    let read = read_gateway(Notification::RedirectedFrom, data);
    *identity = handed_out(read, data).identity;
    GatewayRead::from(read)
}

// Reads the data of a REDIRECT_SUPPORTED (16406), at the gateway: in a client's IKE_SA_INIT request. It has none.
pub fn unmavreth_read_redirect_supported(data: &[u8]) -> u8
    ensures { result ≡ first_failed (supported_checks «data».now) }
{
    told(reading_redirects::read_redirect_supported(data))
}

// Writes the data of a REDIRECT, at the gateway: for an IKE_SA_INIT response with the nonce of the client's request;
// for the first or the last IKE_AUTH response, or for an INFORMATIONAL request, with an empty one, which is none. The
// output must have room for the longest data whatever is written (`REDIRECT_ROOM`, 513 octets).
pub fn unmavreth_write_redirect(
    identity_type: u8,
    identity: &[u8],
    nonce: &[u8],
    out: &mut [u8],
) -> DataWritten
    ensures { let malformed = unfit true identity_type identity.now nonce.now in
        let octets = gateway_octets identity_type identity.now nonce.now in
        DataWrittenAs malformed octets out.old result out.new }
{
    let gateway = Gateway {
        identity_type,
        identity,
        nonce,
    };
    DataWritten::from(write_gateway(Notification::Redirect, gateway, out))
}

// Writes the data of a REDIRECTED_FROM, at the client: for the IKE_SA_INIT request to the gateway that it was moved
// to, with the address of the gateway that it comes from. The output must have room as for a REDIRECT.
pub fn unmavreth_write_redirected_from(
    identity_type: u8,
    identity: &[u8],
    out: &mut [u8],
) -> DataWritten
    ensures { let malformed = unfit false identity_type identity.now [] in
        let octets = gateway_octets identity_type identity.now [] in
        DataWrittenAs malformed octets out.old result out.new }
{
    let gateway = Gateway {
        identity_type,
        identity,
        nonce: &[],
    };
    DataWritten::from(write_gateway(Notification::RedirectedFrom, gateway, out))
}

// Writes the data of a REDIRECT_SUPPORTED, at the client: for its first IKE_SA_INIT request. There is none, but the
// output must have room as for a REDIRECT.
pub fn unmavreth_write_redirect_supported(out: &mut [u8]) -> DataWritten
    ensures { DataWrittenAs false [] out.old result out.new }
{
    DataWritten::from(writing_redirects::write_redirect_supported(out))
}

// Decides on a REDIRECT, at the client, by its data and the exchange that it came in: 0 IKE_SA_INIT, 1 the first
// IKE_AUTH response, 2 one in the middle, 3 the last, 4 INFORMATIONAL. `sent` is the nonce of the client's IKE_SA_INIT
// request, at which only that exchange looks; `time` is in seconds. `count` and `times` are the client's record of
// accepted times, oldest first, which a refusal leaves as it was; a fresh one is all zeros. The new gateway's identity
// is handed out as a part of the data; empty with a refusal.
#[tactic(auto, using(deciding_redirects::proofs::Told::decided))]
pub fn unmavreth_decide_redirect<'s, 'a>(
    count: &mut u8,
    times: &mut [u64; REDIRECTS_MOST],
    identity: &'s mut &'a [u8],
    exchange: u8,
    sent: &[u8],
    time: u64,
    data: &'a [u8],
) -> RedirectDecision
    ensures { let old = accepted count.old times.old in
        let after = accepted count.new times.new in
        DecidedAs old exchange sent.now time «data».entry result after identity.new }
{
    let mut accepted = Accepted {
        count: *count,
        times: *times,
    };
    let decided = decide(&mut accepted, exchange, sent, time, data);
    *count = accepted.count;
    *times = accepted.times;
    *identity = handed_out(decided, data).identity;
    RedirectDecision::from(decided)
}
