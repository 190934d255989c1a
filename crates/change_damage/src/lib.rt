// Refusal 2's sentence on changes: rows below their record's row count, sets below C. It runs at every call. The contract is an
// equality with the definition of tables/specs. Assumes nothing.
#![tactic(auto)]

ghost use Rattle.std.specs.Prelude.{◌≡◌, true, ◌+◌, ◌<◌, ◌≤◌, length};
ghost use Rattle.bits.specs.All.{all_below};
ghost use Rattle.tables.specs.Damage.{all_in, clock_fits, records_fit, changes_fit};
ghost use Rattle.change_damage.specs.Parts.{Gathered, row_below, record_rows_fit, Alike, Rising};

use tables::{MAX_CHANGES, MAX_ROWS, Row};

// The n cells from `from` on, as one set: their first half and their second at once.
fn gathered(cells: &[u32], from: usize, n: usize) -> u32
    requires { from + n ≤ length cells.now }
    ensures { Gathered cells.now from n result }
{
    let half = (n + 1) / 2;
    let other = from + n / 2;
    let mut all: u32 = 0;
    for p in 0..half {
        all |= cells[from + p] | cells[other + p];
    }
    all
}

// Whether the changes from `from` to `to` have rows below `rows`, one by one.
fn rows_below_each(changes: &[u32], from: usize, to: usize, rows: Row) -> bool
    requires { (to ≤ 2048) × (4096 ≤ length changes.now) }
    ensures { result ≡ all_in (row_below changes.now rows.0) from to }
{
    let mut ok = true;
    for p in from..to {
        ok &= changes[p] < rows.0;
    }
    ok
}

// Whether the changes from `from` to `to` have rows below `rows`, as those before `from` have. All are below 2,048 exactly if their
// bits together are. A longer stretch is made a multiple of eight by some of those before it: processors compare eight at once.
fn rows_below(changes: &[u32], from: usize, to: usize, rows: Row) -> bool
    requires { (from ≤ to) × (to ≤ 2048) × (4096 ≤ length changes.now) × (all_in (row_below changes.now rows.0) 0 from ≡ true) }
    ensures { result ≡ all_in (row_below changes.now rows.0) from to }
{
    if rows.0 == MAX_ROWS {
        return gathered(changes, from, to - from) < MAX_ROWS;
    }
    // Two tests: as one with `||` the check of grown tables takes 2 % more instructions.
    if to - from < 8 {
        return rows_below_each(changes, from, to, rows);
    }
    if from < 8 {
        return rows_below_each(changes, from, to, rows);
    }
    rows_below_each(changes, to - (to - from + 7) / 8 * 8, to, rows)
}

// Of the records k + 1, k + 1 + step, .. up to n, the last before the row count changes: the step is no count.
fn alike_by(log: &[u32], k: usize, n: usize, step: usize) -> usize
    requires { (k < n) × (n ≤ 512) × (0 < step) × (step ≤ 8) × (2048 ≤ length log.now) }
    ensures { Alike log.now k result n }
{
    let rows = log[1024 + k];
    let mut e = k;
    while e + step < n && log[1024 + (e + step)] == rows {
        e += step;
    }
    e
}

// The last of the records k + 1 to n that has the row count of the first. Row counts never fall: so have those between.
fn last_alike(log: &[u32], k: usize, n: usize) -> usize
    requires { (k < n) × (n ≤ 512) × (2048 ≤ length log.now) }
    ensures { Alike log.now k result n }
{
    let last = n - 1;
    if log[1024 + last] == log[1024 + k] {
        return last;
    }
    let e = alike_by(log, k, n, 4);
    alike_by(log, e, n, 1)
}

// Whether the changes of each of the first n records have rows below its row count. Records of one row count are judged together, so
// that a step is over as many records as have it.
fn each_rows_fit(log: &[u32], changes: &[u32], n: usize) -> bool
    requires { (n ≤ 512) × (2048 ≤ length log.now) × (4096 ≤ length changes.now) × Rising log.now n }
    ensures { result ≡ all_below (record_rows_fit log.now changes.now) n }
{
    let mut k: usize = 0;
    let mut from: usize = 0;
    while k < n {
        let last = last_alike(log, k, n);
        let rows = Row(log[1024 + last]);
        let to = log[1536 + last] as usize;
        if !rows_below(changes, from, to, rows) {
            return false;
        }
        from = to;
        k = last + 1;
    }
    true
}

// Whether the changes are sound.
pub fn changes_fit(clock: &[u32], log: &[u32], changes: &[u32]) -> bool
    requires in_bounds { (6 ≤ length clock.now) × (2048 ≤ length log.now) × (4096 ≤ length changes.now) }
    requires clock_value { (clock_fits clock.now ≡ true) × (records_fit clock.now log.now ≡ true) }
    ensures { result ≡ changes_fit clock.now log.now changes.now }
{
    let c = tables::clock_of(clock);
    let n = tables::changes_used(clock) as usize;
    bits::all_below(gathered(changes, MAX_CHANGES as usize, n), c.values.0)
        && each_rows_fit(log, changes, c.stamp.0 as usize)
}
