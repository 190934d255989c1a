// Refusal 2's sentences on records: each bears its stamp and a kind, its row count and its end do not fall, and the last end at the counts.
// They run at every call. The contract is an equality with the definition of tables/specs. Assumes nothing.
#![tactic(auto)]

ghost use Rattle.std.specs.Prelude.{◌≡◌, true, ◌||◌, ◌+◌, ◌<◌, ◌≤◌, length, eqb};
ghost use Rattle.tables.specs.Damage.{all_in, clock_fits, record_fits, records_fit};

use tables::{MAX_CHANGES, MAX_ROWS, Row};

// Whether a record has one of the two kinds; the lent cells hold plain numbers.
fn kind_known(kind: u32) -> bool
    ensures { result ≡ (eqb kind 1 || eqb kind 2) }
{
    matches!(kind, 1 | 2)
}

// Whether record k + 1 bears that stamp and a kind, and its row count and its end do not fall.
fn later_record_fits(log: &[u32], k: usize) -> bool
    requires { (0 < k) × (k < 512) × (2048 ≤ length log.now) }
    ensures { result ≡ record_fits 0 log.now k }
{
    let stamp = log[k] == k as u32 + 1;
    let kind = kind_known(log[512 + k]);
    let rows = log[1023 + k] <= log[1024 + k];
    let end = log[1535 + k] <= log[1536 + k];
    stamp & kind & rows & end
}

// Whether each of the records 2 to n does, one by one.
fn later_records_fit_each(log: &[u32], n: usize) -> bool
    requires { (n ≤ 512) × (2048 ≤ length log.now) }
    ensures { result ≡ all_in (record_fits 0 log.now) 1 n }
{
    let mut ok = true;
    for k in 1..n {
        ok &= later_record_fits(log, k);
    }
    ok
}

// Whether, in the records 2 to n, stamps and kinds are as they should be and row counts and ends rise by less than 2 ^ 22 each,
// from 2,048 at most: what each record is off by is gathered, modulo 2 ^ 32.
fn later_records_close(log: &[u32], n: usize) -> bool
    requires { (n ≤ 512) × (2048 ≤ length log.now) }
    ensures { result ≡ true → all_in (record_fits 0 log.now) 1 n ≡ true }
{
    let mut stamps: u32 = 0;
    let mut kinds: u32 = 0;
    let mut rows: u32 = 0;
    let mut ends: u32 = 0;
    for k in 1..n {
        stamps |= log[k].wrapping_sub(k as u32 + 1);
        kinds |= log[512 + k].wrapping_sub(1);
        rows |= log[1024 + k].wrapping_sub(log[1023 + k]);
        ends |= log[1536 + k].wrapping_sub(log[1535 + k]);
    }
    let low = (log[1024] <= MAX_ROWS) & (log[1536] <= MAX_CHANGES);
    (stamps == 0) & (kinds < 2) & (rows < 4194304) & (ends < 4194304) & low
}

// Whether each of the records 2 to n does: at once where none is far off.
fn later_records_fit(log: &[u32], n: usize) -> bool
    requires { (n ≤ 512) × (2048 ≤ length log.now) }
    ensures { result ≡ all_in (record_fits 0 log.now) 1 n }
{
    if later_records_close(log, n) {
        return true;
    }
    later_records_fit_each(log, n)
}

// Whether record 1, if there is one, bears its stamp and a kind, and its row count is not below the first.
fn first_record_fits(log: &[u32], first: Row, n: usize) -> bool
    requires { 2048 ≤ length log.now }
    ensures { result ≡ (eqb n 0 || record_fits first.0 log.now 0) }
{
    let fits = (log[0] == 1) & kind_known(log[512]) & (first.0 <= log[1024]);
    (n == 0) | fits
}

// Whether the records are sound, and end at the current row count and the change count.
pub fn records_fit(clock: &[u32], log: &[u32]) -> bool
    requires { (6 ≤ length clock.now) × (2048 ≤ length log.now) × (clock_fits clock.now ≡ true) }
    ensures { result ≡ records_fit clock.now log.now }
{
    let c = tables::clock_of(clock);
    let n = c.stamp.0 as usize;
    let end = tables::end_at(log, c.stamp) == tables::changes_used(clock) as usize;
    let rows = tables::rows_at(log, c.first, c.stamp).0 == c.rows.0;
    first_record_fits(log, c.first, n) & later_records_fit(log, n) & end & rows
}
