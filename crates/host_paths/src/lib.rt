// The calls on paths that a host links: samples of round trips, losses, and which path is quickest now. The state is
// the host's, lent as a column for each thing that is kept of eight paths (`paths/specs/Columns.antt`).
#![tactic(auto)]

ghost use Rattle.std.specs.Prelude.{◌≡◌, List, ℕ, Float};
ghost use Rattle.paths.specs.Calls.{answer};
ghost use Rattle.paths.specs.Choice.{choice};
ghost use Rattle.paths.specs.Best.{choice_told};
ghost use Rattle.paths.specs.Columns.{columns, paths_of, started_columns, sampled_columns, lost_columns};

use octets::number::Number;
use paths::choice::{PathChoice, is_quicker};
use paths::columns::ROUND_TRIP;
use paths::limits::PATHS_MOST;
use paths::path::Path;
use paths::refusal::{check_count, check_event};

// Starts with so many paths and forgets what was kept before; a number over 8 is refused.
#[tactic(auto, using(paths::proofs::Laws::refused), unfolding(paths::specs::Columns::started_columns))]
pub fn unmavreth_start_paths(
    count: &mut u32,
    event: &mut [u8; PATHS_MOST],
    sampled: &mut [u8; PATHS_MOST],
    milliseconds: &mut [f64; PATHS_MOST],
    smoothed: &mut [f64; PATHS_MOST],
    spread: &mut [f64; PATHS_MOST],
    number_of_paths: u32,
) -> u8
    ensures { let before = columns count.old event.old sampled.old milliseconds.old
        smoothed.old spread.old in
        let after = columns count.new event.new sampled.new milliseconds.new
        smoothed.new spread.new in
        answer result after ≡ started_columns number_of_paths before }
{
    if let Err(number) = check_count(number_of_paths) {
        return u8::from(number);
    }
    *count = number_of_paths;
    *event = [0; PATHS_MOST];
    *sampled = [0; PATHS_MOST];
    *milliseconds = [0.0; PATHS_MOST];
    *smoothed = [0.0; PATHS_MOST];
    *spread = [0.0; PATHS_MOST];
    0
}

// Takes a round trip of so many milliseconds on a path.
#[tactic(auto, using(paths::proofs::Laws::refused), unfolding(paths::specs::Columns::sampled_columns))]
pub fn unmavreth_take_sample(
    count: u32,
    event: &mut [u8; PATHS_MOST],
    sampled: &mut [u8; PATHS_MOST],
    milliseconds: &mut [f64; PATHS_MOST],
    smoothed: &mut [f64; PATHS_MOST],
    spread: &mut [f64; PATHS_MOST],
    ordinal: u32,
    round_trip: u32,
) -> u8
    ensures { let before = columns count event.old sampled.old milliseconds.old
        smoothed.old spread.old in
        let after = columns count event.new sampled.new milliseconds.new
        smoothed.new spread.new in
        answer result after ≡ sampled_columns before ordinal round_trip }
{
    if let Err(number) = check_event(count, ordinal, round_trip) {
        return u8::from(number);
    }
    let k = ordinal as usize;
    let old = Path::lent(
        event[k],
        sampled[k],
        milliseconds[k],
        smoothed[k],
        spread[k],
    );
    let new = old.after_sample(round_trip);
    event[k] = new.last.kind();
    sampled[k] = 1;
    milliseconds[k] = new.last.milliseconds();
    smoothed[k] = new.smoothed;
    spread[k] = new.spread;
    0
}

// Takes a loss on a path, noticed after so many milliseconds: neither whether a round trip was ever taken nor the two
// numbers change.
#[tactic(auto, using(paths::proofs::Laws::refused), unfolding(paths::specs::Columns::lost_columns))]
pub fn unmavreth_take_loss(
    count: u32,
    event: &mut [u8; PATHS_MOST],
    sampled: &mut [u8; PATHS_MOST],
    milliseconds: &mut [f64; PATHS_MOST],
    smoothed: &mut [f64; PATHS_MOST],
    spread: &mut [f64; PATHS_MOST],
    ordinal: u32,
    waited: u32,
) -> u8
    ensures { let before = columns count event.old sampled.old milliseconds.old
        smoothed.old spread.old in
        let after = columns count event.new sampled.new milliseconds.new
        smoothed.new spread.new in
        answer result after ≡ lost_columns before ordinal waited }
{
    if let Err(number) = check_event(count, ordinal, waited) {
        return u8::from(number);
    }
    let k = ordinal as usize;
    let old = Path::lent(
        event[k],
        sampled[k],
        milliseconds[k],
        smoothed[k],
        spread[k],
    );
    let last = old.after_loss(waited).last;
    event[k] = last.kind();
    milliseconds[k] = last.milliseconds();
    0
}

// The ordinal of the path that is quickest now.
fn quickest(
    count: u32,
    event: &[u8; PATHS_MOST],
    smoothed: &[f64; PATHS_MOST],
) -> Result<u32, Number>
    ensures { (sampled : List ℕ) (milliseconds spread : List Float) →
        choice_told result ≡ choice (paths_of (columns count event.now sampled milliseconds smoothed.now spread)) }
{
    check_count(count)?;
    let mut best: Option<(u32, f64)> = None;
    for ordinal in 0..count {
        let k = ordinal as usize;
        if event[k] == ROUND_TRIP && is_quicker(best, smoothed[k]) {
            best = Some((ordinal, smoothed[k]));
        }
    }
    best.map(|(ordinal, _)| ordinal)
        .ok_or(Number::NoPathQualifies)
}

// Chooses the path that is quickest now.
pub fn unmavreth_choose_path(
    count: u32,
    event: &[u8; PATHS_MOST],
    smoothed: &[f64; PATHS_MOST],
) -> PathChoice
    ensures { (sampled : List ℕ) (milliseconds spread : List Float) →
        result ≡ choice (paths_of (columns count event.now sampled milliseconds smoothed.now spread)) }
{
    PathChoice::from(quickest(count, event, smoothed))
}
