// Checks 1 to 5 of a request, in their order.
ghost use Rattle.std.specs.Prelude.{◌≡◌, ◌≢◌, ◌&&◌, eqb, IfErr};
ghost use Rattle.octets.specs.Limits.{ipsec_places};
ghost use Rattle.octets.specs.Numbers.{number_of, told};
ghost use Rattle.checking.specs.Checks.{arguments_fit};
ghost use Rattle.checking.specs.Lookup.{request_by, early_number_at};

use crate::lookup::Looked;
use answering::request::LentRequest;
use octets::flag::is_yes;
use octets::limits::{BODY_MOST, IKE_PLACES, IPSEC_PLACES, NAT_OCTETS, RESPONSE_ROOM};
use octets::number::Number;
use octets::operator::not_operator;

// Check 1, of a list of `size` IPsec records and of the arguments. Whatever fails gives the same number, so the order
// is free: with the SPI last a request takes fewer instructions than with it first (`docs/PERFORMANCE.md`).
pub fn arguments_fit(size: usize, request: &LentRequest) -> bool
    ensures { let r = request.now in
        let fit = arguments_fit r.spi r.pair r.nat_source.now r.nat_destination.now r.check in
        result ≡ eqb size ipsec_places && fit }
{
    request.nat_source.len() == NAT_OCTETS
        && request.nat_destination.len() == NAT_OCTETS
        && size == IPSEC_PLACES
        && request.check.is_pending()
        && request.pair.fits()
        && request.spi != 0
}

// Checks 1 to 5 in their order, for an output of `room` octets; no refusal is told as done.
#[tactic(auto, unfolding(crate::specs::Checks::early_number_by))]
pub fn early_checks(looked: Looked, request: &LentRequest, room: usize) -> Result<(), Number>
    ensures value { told result ≡ early_number_at looked (request_by request.now room) }
    ensures refused { IfErr result (λ number. number_of number ≢ 0) }
{
    let agreed = looked.marks.agreed;
    if !arguments_fit(looked.size, request) || not_operator(request.operator) {
        return Err(Number::BadArgument);
    }
    if room < RESPONSE_ROOM {
        return Err(Number::OutputTooShort);
    }
    if BODY_MOST < request.body.len() {
        return Err(Number::BodyTooLong);
    }
    if IKE_PLACES <= looked.place || agreed.operator != request.operator {
        return Err(Number::NoSuchRecord);
    }
    if !is_yes(agreed.mobike) {
        return Err(Number::MobikeNotAgreed);
    }
    Ok(())
}
