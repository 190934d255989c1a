// A caller's number as a row or a value.
ghost use Rattle.std.specs.Prelude.{◌≡◌};
ghost use Rattle.outcomes.specs.Narrow.{narrowed};

use tables::{Row, Value};

// A number in 32 bits: one that does not fit is the greatest, which no table has as a row or a value.
fn narrow(n: u64) -> u32
    ensures { result ≡ narrowed n }
{
    u32::try_from(n).unwrap_or(u32::MAX)
}

// The row of a number: 7 is given for one that fits no row.
pub fn row_of(n: u64) -> Row
    ensures { result.0 ≡ narrowed n }
{
    Row(narrow(n))
}

// The value of a number: 6 is given for one that fits no value.
pub fn value_of(n: u64) -> Value
    ensures { result.0 ≡ narrowed n }
{
    Value(narrow(n))
}
