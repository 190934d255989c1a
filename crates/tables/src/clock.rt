// The clock: one record of four numbers, and two counts beside it in the same table.
ghost use Rattle.std.specs.Prelude.{◌≡◌, ◌<◌, ◌≤◌, length};
ghost use Rattle.tables.specs.Clock.{clock_in, lent_clock, later};
ghost use Rattle.tables.specs.Cells.{slots_in, changes_in};
ghost use Rattle.tables.specs.Stores.{put_clock, put_moment, put_slots_used, put_changes_used};

use crate::counts::{Row, Stamp, Value};

// C, the first row count, the stamp and the row count.
#[derive(Clone, Copy)]
pub struct Clock {
    pub values: Value,
    pub first: Row,
    pub stamp: Stamp,
    pub rows: Row,
}

// The clock of the lent cells.
pub fn clock_of(clock: &[u32]) -> Clock
    requires { 6 ≤ length clock.now }
    ensures { result ≡ clock_in clock.now }
{
    Clock {
        values: Value(clock[0]),
        first: Row(clock[1]),
        stamp: Stamp(clock[2]),
        rows: Row(clock[3]),
    }
}

// The clock of the lent cells; all 0 where they are too few.
pub fn clock_lent(clock: &[u32]) -> Clock
    ensures { result ≡ lent_clock clock.now }
{
    if clock.len() < 6 {
        return Clock {
            values: Value(0),
            first: Row(0),
            stamp: Stamp(0),
            rows: Row(0),
        };
    }
    clock_of(clock)
}

// How many slots are in use.
pub fn slots_used(clock: &[u32]) -> u32
    requires { 6 ≤ length clock.now }
    ensures { result ≡ slots_in clock.now }
{
    clock[4]
}

// How many changes are in use.
pub fn changes_used(clock: &[u32]) -> u32
    requires { 6 ≤ length clock.now }
    ensures { result ≡ changes_in clock.now }
{
    clock[5]
}

// The clock one stamp later, with another row count.
pub fn advanced(c: Clock, rows: Row) -> Clock
    requires { c.stamp.0 < 4294967295 }
    ensures { result ≡ later c rows }
{
    Clock {
        stamp: Stamp(c.stamp.0 + 1),
        rows,
        ..c
    }
}

// The clock's record, the slots and the changes in use are written.
pub fn put_clock(clock: &mut [u32], c: Clock, slots: u32, changes: u32)
    requires { 6 ≤ length clock.old }
    ensures { clock.new ≡ put_clock clock.old
        c.values.0 c.first.0 c.stamp.0 c.rows.0 slots changes }
{
    clock[0] = c.values.0;
    clock[1] = c.first.0;
    clock[2] = c.stamp.0;
    clock[3] = c.rows.0;
    clock[4] = slots;
    clock[5] = changes;
}

// The stamp and the row count are written.
pub fn put_moment(clock: &mut [u32], c: Clock)
    requires { 6 ≤ length clock.old }
    ensures { clock.new ≡ put_moment clock.old c.stamp.0 c.rows.0 }
{
    clock[2] = c.stamp.0;
    clock[3] = c.rows.0;
}

// The slots in use are written.
pub fn put_slots_used(clock: &mut [u32], n: u32)
    requires { 6 ≤ length clock.old }
    ensures { clock.new ≡ put_slots_used clock.old n }
{
    clock[4] = n;
}

// The changes in use are written.
pub fn put_changes_used(clock: &mut [u32], n: u32)
    requires { 6 ≤ length clock.old }
    ensures { clock.new ≡ put_changes_used clock.old n }
{
    clock[5] = n;
}
