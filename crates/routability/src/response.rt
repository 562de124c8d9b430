// The response to a return routability check of ours, by what was looked up for it. The tables around it are lent to `host_check`.
ghost use Rattle.std.specs.Prelude.{◌≡◌, ◌≢◌, ◌≤◌, ltb, IfErr};
ghost use Rattle.octets.specs.Limits.{cookie_most, ike_places};
ghost use Rattle.octets.specs.Numbers.{number_of, told};
ghost use Rattle.records.specs.Pending.{cookie_sent};
ghost use Rattle.initiator.specs.Response.{AssessedAs};
ghost use Rattle.routability.specs.Routability.{pending_for, early_response, check_told};
ghost use Rattle.routability.specs.Ending.{response_by, entry_after, ending_of};

use initiator::response::{Assessment, NO_OUTCOME, Outcome, assess, refuse};
use octets::flag::is_yes;
use octets::limits::{BODY_MOST, IKE_PLACES, IPSEC_PLACES};
use octets::number::Number;
use octets::operator::not_operator;
use records::check::PendingCheck;
use records::ike::IkeRecord;

// A response as it is lent: the SPI that it means, its message ID, the type of its first payload, its body, and the
// operator that it is taken for.
#[derive(Clone, Copy)]
pub struct LentResponse<'a> {
    pub spi: u64,
    pub id: u32,
    pub first: u8,
    pub body: &'a [u8],
    pub operator: u8,
}

// What is looked up for it: how many IPsec records are lent, the lowest place with its SPI, and the record there.
#[derive(Clone, Copy)]
pub struct CheckLooked {
    pub size: usize,
    pub place: usize,
    pub entry: IkeRecord,
}

// What is told of a response, the record to store at its place, none with a refusal, and whether what it owns is closed
// or moved (two flags, as `lent_closed` takes them).
#[derive(Clone, Copy)]
pub struct Ending {
    pub told: Assessment,
    pub entry: Option<IkeRecord>,
    pub closes: bool,
    pub moves: bool,
}

// Whether the record has a check under way by a request of ours with this ID.
pub fn is_pending_for(entry: &IkeRecord, id: u32) -> bool
    ensures { result ≡ pending_for entry.now id }
{
    entry.check.is_pending() && entry.check.id == id
}

// The checks before the chain is read, in their order; no refusal is told as done.
#[tactic(auto, unfolding(crate::specs::Routability::early_response))]
pub fn early_checks(looked: &CheckLooked, response: &LentResponse) -> Result<(), Number>
    ensures value { let l = looked.now in
        told result ≡ early_response l.size (ltb l.place ike_places) l.entry (response_by response.now) }
    ensures refused { IfErr result (λ number. number_of number ≢ 0) }
{
    let agreed = looked.entry.agreed;
    if looked.size != IPSEC_PLACES || response.spi == 0 || not_operator(response.operator) {
        return Err(Number::BadArgument);
    }
    if BODY_MOST < response.body.len() {
        return Err(Number::BodyTooLong);
    }
    if IKE_PLACES <= looked.place || agreed.operator != response.operator {
        return Err(Number::NoSuchRecord);
    }
    if !is_yes(agreed.mobike) {
        return Err(Number::MobikeNotAgreed);
    }
    if !is_pending_for(&looked.entry, response.id) {
        return Err(Number::CheckNotPending);
    }
    Ok(())
}

// What a response comes to, given the cookie that is kept.
pub fn assess_kept(check: PendingCheck, first: u8, body: &[u8]) -> Assessment
    requires { check.length ≤ cookie_most }
    ensures { AssessedAs (cookie_sent check) first body.now result }
{
    assess(&check.octets[..check.length as usize], first, body)
}

// All that is told of a response.
pub fn tell(looked: &CheckLooked, response: &LentResponse) -> Assessment
    ensures { let l = looked.now in
        result ≡ check_told l.size (ltb l.place ike_places) l.entry (response_by response.now) }
{
    match early_checks(looked, response) {
        Err(number) => refuse(u8::from(number), 0, 0),
        Ok(()) => assess_kept(looked.entry.check, response.first, response.body),
    }
}

// The record after a response that is not refused.
pub fn entry_after(closes: bool, entry: IkeRecord) -> IkeRecord
    ensures { result ≡ entry_after closes entry }
{
    if closes {
        IkeRecord::none()
    } else {
        entry.unchecked()
    }
}

// What a response comes to, by what was looked up.
#[tactic(auto, unfolding(crate::specs::Ending::ending_of))]
pub fn end_check(looked: &CheckLooked, response: &LentResponse) -> Ending
    ensures { result ≡ ending_of looked.now (response_by response.now) }
{
    let told = tell(looked, response);
    let closes = told.outcome == u8::from(Outcome::Close);
    let moves = told.outcome == u8::from(Outcome::Accepted);
    let entry = if told.outcome == NO_OUTCOME {
        None
    } else {
        Some(entry_after(closes, looked.entry))
    };
    Ending {
        told,
        entry,
        closes,
        moves,
    }
}
