// What each payload adds to what was seen, which is changed in place; or that it may not stand there.
ghost use Rattle.std.specs.Prelude.{◌≡◌, true, false, MatchResult};
ghost use Rattle.octets.specs.Limits.{body_most};
ghost use Rattle.payload.specs.declared.payload.Fault.TheVariants.{Conflict};
ghost use Rattle.findings.specs.Seen.{noted, content_noted, repeats, conflicts};
ghost use Rattle.findings.specs.Counted.{Counted};

use findings::seen::Seen;
use notify::notify::NotifyKind;
use payload::payload::{Content, Fault};
use storing::store::{
    address_noted, mark_once, none_noted, payload_counted, put_once, source_noted, unknown_noted,
};

// What a notification of `kind` adds, its data of `size` octets at `at`; or nothing, where it may not stand after what
// was seen.
#[tactic(auto, unfolding(findings::specs::Seen::noted))]
fn notify_noted(
    seen: &mut Seen,
    kind: NotifyKind,
    notify_type: u16,
    at: u16,
    size: u16,
) -> Result<(), Fault>
    requires { Counted body_most seen.old }
    ensures { MatchResult result
        (λ _. (repeats seen.old kind ≡ false) × (seen.new ≡ noted seen.old kind notify_type at size))
        (λ f. (f ≡ Conflict) × (repeats seen.old kind ≡ true) × (seen.new ≡ seen.old)) }
{
    match kind {
        NotifyKind::NatDetectionSource => source_noted(&mut seen.nat_source, at),
        NotifyKind::NatDetectionDestination => put_once(&mut seen.nat_destination, at)?,
        NotifyKind::MobikeSupported => {}
        NotifyKind::AdditionalIp4 => address_noted(seen, 4, at)?,
        NotifyKind::AdditionalIp6 => address_noted(seen, 6, at)?,
        NotifyKind::NoAdditionalAddresses => none_noted(seen)?,
        NotifyKind::UpdateSaAddresses => mark_once(&mut seen.update)?,
        NotifyKind::Cookie2 => {
            put_once(&mut seen.cookie, at)?;
            seen.cookie_len = size;
        }
        NotifyKind::NoNatsAllowed => {
            put_once(&mut seen.no_nats, at)?;
            seen.no_nats_len = size;
        }
        _ => unknown_noted(&mut seen.tally, kind, notify_type),
    }
    Ok(())
}

// What a payload adds, a Notify's data at `at`; or nothing, where it contradicts or repeats what was seen.
#[tactic(auto, unfolding(findings::specs::Seen::content_noted))]
pub fn content_noted(seen: &mut Seen, content: Content, at: u16) -> Result<(), Fault>
    requires { Counted body_most seen.old }
    ensures { MatchResult result
        (λ _. (conflicts seen.old content ≡ false) × (seen.new ≡ content_noted seen.old content at))
        (λ f. (f ≡ Conflict) × (conflicts seen.old content ≡ true) × (seen.new ≡ seen.old)) }
{
    match content {
        Content::Skipped => payload_counted(&mut seen.tally, 0),
        Content::Unknown => payload_counted(&mut seen.tally, 1),
        Content::Notify(kind, notify_type, size) => {
            notify_noted(seen, kind, notify_type, at, size)?;
            payload_counted(&mut seen.tally, 0);
        }
    }
    Ok(())
}
