// One finding each, stored in what was seen.
ghost use Rattle.std.specs.Prelude.{◌≡◌, true, false, cond, ◌≤◌, MatchResult};
ghost use Rattle.octets.specs.Flags.{is_yes};
ghost use Rattle.octets.specs.Limits.{body_most};
ghost use Rattle.payload.specs.declared.payload.Fault.TheVariants.{Conflict};
ghost use Rattle.notify.specs.declared.notify.NotifyKind.TheVariants.{NoAdditionalAddresses};
ghost use Rattle.findings.specs.Seen.{counted, unknown_notify, listed, repeats};
ghost use Rattle.findings.specs.With.{with_list, none_seen};

use findings::seen::{Offsets, Seen, Tally};
use notify::notify::NotifyKind;
use octets::limits::ADDRESSES_MOST;
use payload::payload::Fault;

// Puts an offset where there is none yet.
pub fn put_once(place: &mut u16, at: u16) -> Result<(), Fault>
    ensures { MatchResult result (λ _. (is_yes place.old ≡ false) × (place.new ≡ at))
        (λ f. (f ≡ Conflict) × (is_yes place.old ≡ true) × (place.new ≡ place.old)) }
{
    if *place != 0 {
        return Err(Fault::Conflict);
    }
    *place = at;
    Ok(())
}

// Sets a flag that is not set yet.
pub fn mark_once(flag: &mut bool) -> Result<(), Fault>
    ensures { MatchResult result (λ _. (flag.old ≡ false) × (flag.new ≡ true))
        (λ f. (f ≡ Conflict) × (flag.old ≡ true) × (flag.new ≡ flag.old)) }
{
    if *flag {
        return Err(Fault::Conflict);
    }
    *flag = true;
    Ok(())
}

// Of several NAT_DETECTION_SOURCE_IP the first is handed out.
pub fn source_noted(place: &mut u16, at: u16)
    ensures { place.new ≡ cond (is_yes place.old) place.old at }
{
    if *place == 0 {
        *place = at;
    }
}

// NO_ADDITIONAL_ADDRESSES, unless there was an address or another such.
pub fn none_noted(seen: &mut Seen) -> Result<(), Fault>
    ensures { MatchResult result
        (λ _. (repeats seen.old NoAdditionalAddresses ≡ false)
        × (seen.new ≡ none_seen seen.old))
        (λ f. (f ≡ Conflict) × (repeats seen.old NoAdditionalAddresses ≡ true) × (seen.new ≡ seen.old)) }
{
    if seen.list.count != 0 {
        return Err(Fault::Conflict);
    }
    mark_once(&mut seen.no_additional)
}

// One additional address more, its data at `at`: all are counted, and the first sixteen are kept.
fn address_listed(list: &mut Offsets, family: u8, at: u16)
    requires { list.old.count ≤ body_most }
    ensures { list.new ≡ listed list.old family at }
{
    let place = list.count as usize;
    list.count += 1;
    if place < ADDRESSES_MOST {
        list.offsets[place] = at;
        list.families[place] = family;
    }
}

// The same, unless there was NO_ADDITIONAL_ADDRESSES.
pub fn address_noted(seen: &mut Seen, family: u8, at: u16) -> Result<(), Fault>
    requires { seen.old.list.count ≤ body_most }
    ensures { MatchResult result
        (λ _. (seen.old.no_additional ≡ false) × (seen.new ≡ with_list seen.old (listed seen.old.list family at)))
        (λ f. (f ≡ Conflict) × (seen.old.no_additional ≡ true) × (seen.new ≡ seen.old)) }
{
    if seen.no_additional {
        return Err(Fault::Conflict);
    }
    address_listed(&mut seen.list, family, at);
    Ok(())
}

// One notification more of a kind that is tallied as unknown.
pub fn unknown_noted(tally: &mut Tally, kind: NotifyKind, notify_type: u16)
    requires { (tally.old.unknown_notifies ≤ body_most) × (tally.old.errors ≤ body_most) }
    ensures { tally.new ≡ unknown_notify tally.old kind notify_type }
{
    tally.unknown_notifies += 1;
    if kind.is_error() {
        if tally.errors == 0 {
            tally.first_error = notify_type;
        }
        tally.errors += 1;
    }
}

// One payload more, `unknown` of it of a type that is not known.
pub fn payload_counted(tally: &mut Tally, unknown: u16)
    requires { (unknown ≤ 1) × (tally.old.payloads ≤ body_most) × (tally.old.unknown_payloads ≤ body_most) }
    ensures { tally.new ≡ counted tally.old unknown }
{
    tally.payloads += 1;
    tally.unknown_payloads += unknown;
}
