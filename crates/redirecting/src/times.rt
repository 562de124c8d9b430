// The times of the last accepted redirects, in seconds: what they refuse, and the record with one more.
ghost use Rattle.std.specs.Prelude.{◌≡◌, ◌≢◌, ◌≤◌, length, count_by, IfErr};
ghost use Rattle.octets.specs.Numbers.{number_of, told};
ghost use Rattle.octets.specs.Checks.{first_failed};
ghost use Rattle.redirecting.specs.Limits.{redirects_most};
ghost use Rattle.redirecting.specs.Times.{kept, before_last, is_recent, time_checks, keeping};

use crate::limits::{PERIOD_SECONDS, REDIRECTS_MOST};
use octets::number::Number;

// The times, oldest first, and how many of the places hold one; a count over five reads as five. A fresh record is all
// zeros.
#[repr(C)]
#[derive(Clone, Copy, Default, PartialEq, Eq, Debug)]
pub struct Accepted {
    pub count: u8,
    pub times: [u64; REDIRECTS_MOST],
}

// Whether an accepted time lies less than 300 seconds before `time`, or after it.
#[tactic(auto, using(crate::proofs::Recent::by_difference), unfolding(crate::specs::Times::is_recent))]
fn is_recent(time: u64, accepted: u64) -> bool
    ensures { result ≡ is_recent time accepted }
{
    time.saturating_sub(accepted) < PERIOD_SECONDS
}

impl Accepted {
    // The times that are kept.
    fn kept(&self) -> &[u64]
        ensures times { result.now ≡ kept self.now }
        ensures few { length result.now ≤ redirects_most }
    {
        &self.times[..usize::from(self.count).min(REDIRECTS_MOST)]
    }

    // Whether a time lies before the last accepted one's.
    #[tactic(auto, unfolding(crate::specs::Times::before_last))]
    fn is_before_last(&self, time: u64) -> bool
        ensures { result ≡ before_last (kept self.now) time }
    {
        self.kept().last().is_some_and(|last| time < *last)
    }

    // How many of the accepted times are recent.
    fn recent_count(&self, time: u64) -> usize
        ensures { result ≡ count_by (is_recent time) (kept self.now) }
    {
        self.kept()
            .iter()
            .filter(|accepted| is_recent(time, **accepted))
            .count()
    }

    // What the times refuse a redirect at `time` with.
    #[tactic(auto, using(crate::proofs::Count::counted), unfolding(crate::specs::Times::five_recent))]
    pub fn check(&self, time: u64) -> Result<(), Number>
        ensures told { told result ≡ first_failed (time_checks (kept self.now) time) }
        ensures refusal { IfErr result (λ n. number_of n ≢ 0) }
    {
        if self.is_before_last(time) {
            return Err(Number::TimeBeforeLast);
        }
        if REDIRECTS_MOST <= self.recent_count(time) {
            return Err(Number::TooManyRedirects);
        }
        Ok(())
    }

    // The record with one time more: the last five are kept.
    pub fn with(&self, time: u64) -> Accepted
        ensures { result ≡ keeping self.now time }
    {
        let kept = self.kept();
        let rest = &kept[kept.len().saturating_sub(REDIRECTS_MOST - 1)..];
        let mut times = [0; REDIRECTS_MOST];
        times[..rest.len()].copy_from_slice(rest);
        times[rest.len()] = time;
        Accepted {
            count: (rest.len() + 1) as u8,
            times,
        }
    }
}
