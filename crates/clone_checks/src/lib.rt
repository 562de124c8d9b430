// The number of a clone request: its checks before the chain is read, then those by the chain and behind it.
#![tactic(auto)]

ghost use Rattle.std.specs.Prelude.{◌≡◌, ◌≢◌, ltb, IfErr};
ghost use Rattle.octets.specs.Checks.{first_failed};
ghost use Rattle.octets.specs.Limits.{ike_places};
ghost use Rattle.octets.specs.Numbers.{number_of, told};
ghost use Rattle.cloning.specs.Clone.{early_clone, late_clone};
ghost use Rattle.cloning.specs.Looked.{request_by, whole_checks_at, late_clone_at};

use clone_chain::read::CloneReading;
use cloning::clone::{CloneLooked, LentCloneRequest};
use octets::flag::is_yes;
use octets::limits::{BODY_MOST, IKE_PLACES, IKE_SHARE, PEER_RECORDS_MOST, RESPONSE_ROOM};
use octets::number::{Number, told};
use octets::operator::not_operator;

// The checks before the chain is read, in their order, for an output of `room` octets; no refusal is told as done.
#[tactic(auto, unfolding(cloning::specs::Clone::early_clone))]
pub fn early_checks(
    looked: &CloneLooked,
    request: &LentCloneRequest,
    room: usize,
) -> Result<(), Number>
    ensures value { let l = looked.now in
        told result ≡ early_clone (ltb l.place ike_places) l.entry (request_by request.now room) }
    ensures refused { IfErr result (λ number. number_of number ≢ 0) }
{
    let agreed = looked.entry.agreed;
    if request.spi == 0 || request.new_spi == 0 || not_operator(request.operator) {
        return Err(Number::BadArgument);
    }
    if room < RESPONSE_ROOM {
        return Err(Number::OutputTooShort);
    }
    if BODY_MOST < request.body.len() {
        return Err(Number::BodyTooLong);
    }
    if IKE_PLACES <= looked.place || agreed.operator != request.operator {
        return Err(Number::NoSuchRecord);
    }
    if !is_yes(agreed.cloning) {
        return Err(Number::CloningNotAgreed);
    }
    Ok(())
}

// Those of a chain that was read whole, in their order: CLONE_IKE_SA is there, the record is not being deleted and a
// place is free, the peer is below its limit, the new SPI is not taken, the operator is below its share. No refusal is
// told as done.
pub fn whole_checks(there: bool, looked: &CloneLooked) -> Result<(), Number>
    ensures value { told result ≡ first_failed (whole_checks_at there looked.now) }
    ensures refused { IfErr result (λ number. number_of number ≢ 0) }
{
    if !there {
        return Err(Number::NoCloneRequest);
    }
    if is_yes(looked.entry.deleting) || IKE_PLACES <= looked.free {
        return Err(Number::CannotCloneNow);
    }
    if PEER_RECORDS_MOST <= looked.records {
        return Err(Number::PeerAtLimit);
    }
    if looked.taken < IKE_PLACES {
        return Err(Number::SpiInUse);
    }
    if IKE_SHARE <= looked.own {
        return Err(Number::OperatorAtShare);
    }
    Ok(())
}

// The number of the checks by the chain and behind it, as it is told: a reading has its own so.
#[tactic(auto, unfolding(cloning::specs::Clone::late_clone))]
pub fn late_clone(read: CloneReading, looked: &CloneLooked) -> u8
    ensures { result ≡ late_clone_at read looked.now }
{
    if read.reading.number != 0 {
        return read.reading.number;
    }
    told(whole_checks(read.clone, looked))
}
