// The clock: every count within its limit.
ghost use Rattle.std.specs.Prelude.{◌≡◌, ◌≤◌, length};
ghost use Rattle.tables.specs.Damage.{clock_fits};

use tables::{MAX_CHANGES, MAX_RECORDS, MAX_ROWS, MAX_SLOTS, MAX_VALUES};

// Whether every count of the clock is within its limit.
pub fn clock_fits(clock: &[u32]) -> bool
    requires { 6 ≤ length clock.now }
    ensures { result ≡ clock_fits clock.now }
{
    (1 <= clock[0])
        & (clock[0] <= MAX_VALUES)
        & (clock[3] <= MAX_ROWS)
        & (clock[1] <= MAX_ROWS)
        & (clock[2] <= MAX_RECORDS)
        & (clock[0] <= clock[4])
        & (clock[4] <= MAX_SLOTS)
        & (clock[5] <= MAX_CHANGES)
}
