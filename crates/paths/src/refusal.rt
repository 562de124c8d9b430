// What a call on paths is refused with.
ghost use Rattle.std.specs.Prelude.{◌≡◌, ◌≢◌, IfErr};
ghost use Rattle.octets.specs.Numbers.{number_of, told};
ghost use Rattle.octets.specs.Checks.{first_failed};
ghost use Rattle.paths.specs.Calls.{start_checks, event_checks};

use crate::limits::{MILLISECONDS_MOST, PATHS_MOST};
use octets::number::Number;

// Of so many paths.
pub fn check_count(count: u32) -> Result<(), Number>
    ensures told { told result ≡ first_failed (start_checks count) }
    ensures refusal { IfErr result (λ n. number_of n ≢ 0) }
{
    if count as usize > PATHS_MOST {
        return Err(Number::NoSuchPath);
    }
    Ok(())
}

// Of a round trip or a loss on one of so many paths.
pub fn check_event(count: u32, ordinal: u32, milliseconds: u32) -> Result<(), Number>
    ensures told { told result ≡ first_failed (event_checks count ordinal milliseconds) }
    ensures refusal { IfErr result (λ n. number_of n ≢ 0) }
{
    if count as usize > PATHS_MOST || ordinal >= count {
        return Err(Number::NoSuchPath);
    }
    if milliseconds > MILLISECONDS_MOST {
        return Err(Number::TooManyMilliseconds);
    }
    Ok(())
}
