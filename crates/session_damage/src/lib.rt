// Refusal 2's sentence on sessions: whether one session is free and all 0, or open and sound. It runs for each of the sixteen at every
// call. The contract is an equality with the definition of specs/. Assumes nothing.
#![tactic(auto)]

ghost use Rattle.std.specs.Prelude.{◌≡◌, true, ◌%◌, ◌<◌, ◌≤◌};
ghost use Rattle.bits.specs.All.{all_below};
ghost use Rattle.bits.specs.Bit.{bit, set_bit};
ghost use Rattle.tables.specs.Damage.{all_zero, entry_fits};
ghost use Rattle.session_damage.specs.Parts.{zero_at, listed, once_in, RowsLow, entries_fit, start_fits};
ghost use Rattle.session_damage.specs.Judged.{session_judged};

use tables::{
    Clock, LOG_CELLS, MAX_ENTRIES, MAX_RECORDS, MAX_ROWS, MAX_VALUES, NEW, Row, Session, Stamp,
    Value,
};

// Whether all entries of a list are 0.
fn list_zero(at: &[u16; 32], to: &[u8; 32]) -> bool
    ensures { result ≡ all_below (zero_at at.now to.now) 32 }
{
    let mut rows: u16 = 0;
    for row in at {
        rows |= *row;
    }
    let mut targets: u8 = 0;
    for target in to {
        targets |= *target;
    }
    (rows == 0) & (targets == 0)
}

// Whether a session is all 0.
fn session_zero(s: Session) -> bool
    ensures { result ≡ all_zero s }
{
    let zero = (s.live == 0) & (s.start.0 == 0) & (s.rows.0 == 0) & (s.count == 0);
    zero & list_zero(&s.at, &s.to)
}

// Whether an entry is a row below `rows` with a target, or an insert; the lent cells hold plain numbers, 255 for absent.
#[tactic(auto, unfolding(tables::specs::Damage::entry_fits))]
fn entry_fits(at: u16, to: u8, rows: u16, values: u8) -> bool
    ensures { result ≡ entry_fits values rows at to }
{
    let known = to < values;
    ((at < rows) & (known | (to == 255))) | ((at == NEW) & known)
}

// Whether each of the first n entries is.
fn list_fits(at: &[u16; 32], to: &[u8; 32], n: usize, rows: Row, values: Value) -> bool
    requires { (n ≤ 32) × (rows.0 ≤ 2048) × (values.0 ≤ 32) }
    ensures { result ≡ all_below (listed values.0 rows.0 at.now to.now) n }
{
    let below = rows.0 as u16;
    let c = values.0 as u8;
    let mut ok = true;
    for i in 0..n {
        ok &= entry_fits(at[i], to[i], below, c);
    }
    ok
}

// Whether no row, below 2,048, is listed twice by the first n entries.
fn listed_once(at: &[u16; 32], n: usize) -> bool
    requires { (n ≤ 32) × RowsLow at.now n }
    ensures { result ≡ all_below (once_in at.now) n }
{
    let mut seen = [0u64; 32];
    for at in &at[..n] {
        if *at != NEW {
            let row = usize::from(*at);
            if vectors::get_in(&seen, row) {
                return false;
            }
            vectors::put_in(&mut seen, row, true);
        }
    }
    true
}

// Whether a row's last six bits were seen.
#[tactic(auto, unfolding(bits::specs::Bit::bit))]
fn was_seen(seen: u64, row: u32) -> bool
    ensures { result ≡ bit seen (row % 64) }
{
    (seen >> (row % 64)) % 2 == 1
}

// The last six bits of a row, with those that were seen.
fn with_seen(seen: u64, row: u32) -> u64
    ensures { result ≡ set_bit seen (row % 64) }
{
    seen | (1 << (row % 64))
}

// Whether each of the first n entries is a row below `rows` with a target below C, and no two rows end in the same six bits.
fn list_plain(at: &[u16; 32], to: &[u8; 32], n: usize, rows: Row, values: Value) -> bool
    requires { n ≤ 32 }
    ensures { result ≡ true → (all_below (listed values.0 rows.0 at.now to.now) n ≡ true)
        × (all_below (once_in at.now) n ≡ true) }
{
    let mut seen: u64 = 0;
    let mut ok = true;
    for i in 0..n {
        let row = u32::from(at[i]);
        ok &= (row < rows.0) & (u32::from(to[i]) < values.0) & !was_seen(seen, row);
        seen = with_seen(seen, row);
    }
    ok
}

// Whether a list of n entries is sound in a session of `rows` rows.
fn entries_fit(at: &[u16; 32], to: &[u8; 32], n: u32, rows: Row, values: Value) -> bool
    ensures { result ≡ entries_fit at.now to.now n rows.0 values.0 }
{
    if MAX_ENTRIES < n || MAX_ROWS < rows.0 || MAX_VALUES < values.0 {
        return false;
    }
    let count = n as usize;
    if list_plain(at, to, count, rows, values) {
        return true;
    }
    if !list_fits(at, to, count, rows, values) {
        return false;
    }
    if count < 2 {
        return true;
    }
    listed_once(at, count)
}

// Whether a start is at most the stamp, and `rows` the row count of that moment.
#[tactic(auto, unfolding(crate::specs::Parts::start_fits))]
fn start_fits(start: Stamp, rows: Row, log: &[u32], c: Clock) -> bool
    ensures { result ≡ start_fits start.0 rows.0 log.now c }
{
    start.0 <= c.stamp.0
        && start.0 <= MAX_RECORDS
        && LOG_CELLS <= log.len()
        && rows.0 == tables::rows_at(log, c.first, start).0
}

// Whether a session is free and all 0, or open and sound; the lent cells hold plain numbers, 1 for open.
pub fn session_fits(s: Session, log: &[u32], c: Clock) -> bool
    ensures { result ≡ session_judged s log.now c }
{
    if s.live != 1 {
        return session_zero(s);
    }
    start_fits(s.start, s.rows, log, c) && entries_fit(&s.at, &s.to, s.count, s.rows, c.values)
}
