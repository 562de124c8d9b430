// The data of each redirect notification written to the start of an output.
#![tactic(auto)]

ghost use Rattle.std.specs.Prelude.{◌≡◌, [], ◌+◌, ◌<◌, ◌≤◌, ◌≢◌, false, length, not, IfErr, MatchResult};
ghost use Rattle.octets.specs.declared.number.Number.TheVariants.{OutputTooShort};
ghost use Rattle.octets.specs.Numbers.{number_of};
ghost use Rattle.writing.specs.Notify.{placed};
ghost use Rattle.redirect.specs.Wire.{identity_header, fqdn_most, redirect_room};
ghost use Rattle.redirect.specs.Write.{gateway_octets, unfit, DataWrittenAs};
ghost use Rattle.redirect.specs.Gateway.{may_be_named, written_told};

use octets::number::Number;
use redirect::gateway::{Gateway, Notification};
use redirect::identity::{identity_fits, no_nonce_or};
use redirect::wire::{IDENTITY_HEADER, REDIRECT_ROOM};
use writing::copy_octets;

// Whatever is written, the output has room for the longest data.
fn check_room(room: usize) -> Result<(), Number>
    ensures { MatchResult result (λ _. redirect_room ≤ room) (λ n. (n ≡ OutputTooShort) × (room < redirect_room)) }
{
    if room < REDIRECT_ROOM {
        return Err(Number::OutputTooShort);
    }
    Ok(())
}

// Whether a notification may have this identity and this nonce.
fn fits(notification: Notification, gateway: Gateway<'_>) -> bool
    ensures { let g = gateway.entry in
        result ≡ not (unfit (may_be_named notification) g.identity_type g.identity.now g.nonce.now) }
{
    identity_fits(notification, gateway.identity_type, gateway.identity.len())
        && no_nonce_or(gateway.nonce.len())
}

// Writes identity and nonce to the start of `out`, and returns how many octets that are.
fn put_gateway(gateway: Gateway<'_>, out: &mut [u8]) -> usize
    requires identity_len_bound { length gateway.identity.now ≤ fqdn_most }
    requires nonce_in_bounds { identity_header + length gateway.identity.now + length gateway.nonce.now ≤ length out.old }
    ensures { let g = gateway.entry in
        let octets = gateway_octets g.identity_type g.identity.now g.nonce.now in
        (result ≡ length octets) × (out.new ≡ placed out.old 0 octets) }
{
    let size = gateway.identity.len();
    copy_octets(out, 0, &[gateway.identity_type, size as u8]);
    copy_octets(out, IDENTITY_HEADER, gateway.identity);
    copy_octets(out, IDENTITY_HEADER + size, gateway.nonce);
    IDENTITY_HEADER + size + gateway.nonce.len()
}

// Writes the data of a REDIRECT or of a REDIRECTED_FROM, and returns how many octets it has.
#[tactic(auto, using(crate::proofs::Short::room_for), unfolding(redirect::specs::Write::written))]
pub fn write_gateway(
    notification: Notification,
    gateway: Gateway<'_>,
    out: &mut [u8],
) -> Result<usize, Number>
    ensures { let g = gateway.entry in
        let malformed = unfit (may_be_named notification) g.identity_type g.identity.now g.nonce.now in
        let octets = gateway_octets g.identity_type g.identity.now g.nonce.now in
        DataWrittenAs malformed octets out.old (written_told result) out.new }
{
    check_room(out.len())?;
    if !fits(notification, gateway) {
        return Err(Number::BadRedirect);
    }
    Ok(put_gateway(gateway, out))
}

// Writes the data of a REDIRECT_SUPPORTED: none. No refusal is told as done.
#[tactic(auto, using(writing::proofs::Placed::placed_none), unfolding(redirect::specs::Write::written))]
pub fn write_redirect_supported(out: &mut [u8]) -> Result<usize, Number>
    ensures value { DataWrittenAs false [] out.old (written_told result) out.new }
    ensures refused { IfErr result (λ number. number_of number ≢ 0) }
{
    check_room(out.len()).map(|()| 0)
}
