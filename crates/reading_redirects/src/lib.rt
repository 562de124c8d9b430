// The data of the redirect notifications read: the gateway that it names, with its identity and its nonce as parts of
// the data.
#![tactic(auto)]

ghost use Rattle.std.specs.Prelude.{◌≡◌, ◌≢◌, ◌≤◌, false, length, IfErr};
ghost use Rattle.octets.specs.Checks.{first_failed};
ghost use Rattle.octets.specs.Numbers.{number_of, told};
ghost use Rattle.redirect.specs.Read.{nonce_at, supported_checks};
ghost use Rattle.redirect.specs.Gateway.{malformed, ReadAs, HandedOut};

use octets::number::Number;
use redirect::gateway::{Gateway, Notification};
use redirect::identity::identity_fits;
use redirect::wire::IDENTITY_HEADER;

// Where the identity ends and the nonce begins, by the size that the data gives for its identity; no data gives none.
fn nonce_at(data: &[u8]) -> usize
    ensures { result ≡ nonce_at «data».now }
{
    IDENTITY_HEADER + data.get(1).map_or(0, |size| usize::from(*size))
}

// Whether the data ends before its identity does, or the identity is none that may stand there, or something stands
// behind that of a REDIRECTED_FROM, where a REDIRECT has its nonce.
#[tactic(auto, unfolding(redirect::specs::Read::redirect_malformed, redirect::specs::Read::from_malformed))]
fn is_malformed(notification: Notification, data: &[u8]) -> bool
    ensures value { result ≡ malformed notification «data».now }
    ensures whole { result ≡ false → nonce_at «data».now ≤ length «data».now }
{
    let at = nonce_at(data);
    data.len() < at
        || !identity_fits(notification, data[0], at - IDENTITY_HEADER)
        || (notification == Notification::RedirectedFrom && data.len() != at)
}

// Reads the data of a REDIRECT or of a REDIRECTED_FROM.
pub fn read_gateway(notification: Notification, data: &[u8]) -> Result<Gateway<'_>, Number>
    ensures { ReadAs notification «data».entry result }
{
    if is_malformed(notification, data) {
        return Err(Number::BadRedirect);
    }
    let at = nonce_at(data);
    Ok(Gateway {
        identity_type: data[0],
        identity: &data[IDENTITY_HEADER..at],
        nonce: &data[at..],
    })
}

// What is handed out of a reading: nothing with a refusal.
pub fn handed_out<'a>(read: Result<Gateway<'a>, Number>, data: &'a [u8]) -> Gateway<'a>
    ensures { HandedOut «data».entry read.entry result }
{
    read.unwrap_or(Gateway {
        identity_type: 0,
        identity: &data[..0],
        nonce: &data[..0],
    })
}

// Reads the data of a REDIRECT_SUPPORTED, which has none. No refusal is told as done.
pub fn read_redirect_supported(data: &[u8]) -> Result<(), Number>
    ensures value { told result ≡ first_failed (supported_checks «data».now) }
    ensures refused { IfErr result (λ number. number_of number ≢ 0) }
{
    if data.is_empty() {
        Ok(())
    } else {
        Err(Number::BadRedirect)
    }
}
