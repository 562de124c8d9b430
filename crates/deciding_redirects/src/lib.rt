// The decision on a REDIRECT: by its data, the exchange that it came in, the nonce sent, the time, and the times of
// those accepted before.
#![tactic(auto)]

ghost use Rattle.std.specs.Prelude.{◌≡◌, ◌≢◌, IfErr, IfOk};
ghost use Rattle.octets.specs.Numbers.{number_of, told};
ghost use Rattle.octets.specs.Checks.{first_failed};
ghost use Rattle.redirect.specs.Gateway.{GatewayIn};
ghost use Rattle.redirecting.specs.Times.{kept};
ghost use Rattle.deciding_redirects.specs.Decision.{asked, data_checks, decision_number, after_decision, decision_told};

use octets::number::Number;
use reading_redirects::read_gateway;
use redirect::gateway::{Gateway, Notification};
use redirect::identity::nonce_fits;
use redirecting::exchange::Exchange;
use redirecting::times::Accepted;

// What is told of a REDIRECT; with a refusal all but the number is 0.
#[repr(C)]
#[derive(Clone, Copy)]
pub struct RedirectDecision {
    pub number: u8,
    pub identity_type: u8,
    pub nonce_len: usize,
}

impl From<Result<Gateway<'_>, Number>> for RedirectDecision {
    ghost from_gives = { λ decided told. told ≡ decision_told decided };

    fn from(decided: Result<Gateway<'_>, Number>) -> RedirectDecision {
        match decided {
            Ok(gateway) => RedirectDecision {
                number: u8::from(Number::Done),
                identity_type: gateway.identity_type,
                nonce_len: gateway.nonce.len(),
            },
            Err(number) => RedirectDecision {
                number: u8::from(number),
                identity_type: 0,
                nonce_len: 0,
            },
        }
    }
}

// The gateway that a client is moved to, unless the data, the exchange or the nonce refuse. At the nonce sent only
// IKE_SA_INIT looks, where it must come back; elsewhere there is none.
#[tactic(auto, using(initiator::proofs::Same::same_is, crate::proofs::Init::init_allows))]
fn gateway_in<'a>(exchange: Exchange, sent: &[u8], data: &'a [u8]) -> Result<Gateway<'a>, Number>
    ensures told { told result ≡ first_failed (data_checks exchange sent.now «data».now) }
    ensures gateway { IfOk result (λ g. GatewayIn «data».entry g) }
    ensures refusal { IfErr result (λ n. number_of n ≢ 0) }
{
    let gateway = read_gateway(Notification::Redirect, data)?;
    if exchange.is_init() {
        if !nonce_fits(sent.len()) {
            return Err(Number::BadRedirect);
        }
        if gateway.nonce != sent {
            return Err(Number::WrongNonce);
        }
    } else if !exchange.allows() || !gateway.nonce.is_empty() {
        return Err(Number::WrongExchange);
    }
    Ok(gateway)
}

// Decides on a REDIRECT; where it is accepted the record keeps its time.
#[tactic(auto, using(crate::proofs::Joined::two_parts), unfolding(crate::specs::Decision::after_number))]
pub fn decide<'a>(
    accepted: &mut Accepted,
    exchange: u8,
    sent: &[u8],
    time: u64,
    data: &'a [u8],
) -> Result<Gateway<'a>, Number>
    ensures told { told result ≡ decision_number (kept accepted.old) (asked exchange sent.now time «data».now) }
    ensures after { accepted.new ≡ after_decision accepted.old (asked exchange sent.now time «data».now) }
    ensures gateway { IfOk result (λ g. GatewayIn «data».entry g) }
    ensures refusal { IfErr result (λ n. number_of n ≢ 0) }
{
    let gateway = gateway_in(Exchange::from(exchange), sent, data)?;
    accepted.check(time)?;
    *accepted = accepted.with(time);
    Ok(gateway)
}
