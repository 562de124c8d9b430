// The operators that share the gateway, by their numbers.
ghost use Rattle.std.specs.Prelude.{◌≡◌, not};
ghost use Rattle.octets.specs.Operators.{is_operator};

use crate::limits::OPERATORS;

// Whether a number names no operator.
pub fn not_operator(operator: u8) -> bool
    ensures { result ≡ not (is_operator operator) }
{
    OPERATORS <= operator as usize
}
