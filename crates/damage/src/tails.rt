// The vectors: no bit at or above the row count at the slot's stamp.
ghost use Rattle.std.specs.Prelude.{◌≡◌, true, ◌+◌, ◌*◌, ◌<◌, ◌≤◌, length};
ghost use Rattle.tables.specs.Cells.{slot_stamp};
ghost use Rattle.tables.specs.Damage.{all_in, clock_fits, records_fit, slots_fit, vector_fits, vectors_fit};
ghost use Rattle.damage.specs.Parts.{StampsLow};

use tables::Row;

// Whether slot i's vector has no bit at or above the row count at its stamp.
fn vector_fits(log: &[u32], slots: &[u32], words: &[u64], first: Row, i: usize) -> bool
    requires { (i < 96) × (288 ≤ length slots.now) × (3072 ≤ length words.now) × (2048 ≤ length log.now)
        × (slot_stamp slots.now i ≤ 512) }
    ensures { result ≡ vector_fits first.0 log.now slots.now words.now i }
{
    let s = tables::slot_stamp(slots, i);
    let rows = tables::rows_at(log, first, s).0 as usize;
    let a = 32 * i;
    vectors::tail_clear(&words[a..a + 32], rows)
}

// Whether each of the vectors from `from` to n does.
fn each_vector_fits(
    log: &[u32],
    slots: &[u32],
    words: &[u64],
    first: Row,
    from: usize,
    n: usize,
) -> bool
    requires { (n ≤ 96) × (288 ≤ length slots.now) × (3072 ≤ length words.now) × (2048 ≤ length log.now)
        × StampsLow slots.now n }
    ensures { result ≡ all_in (vector_fits first.0 log.now slots.now words.now) from n }
{
    for i in from..n {
        if !vector_fits(log, slots, words, first, i) {
            return false;
        }
    }
    true
}

// Whether every vector in use is sound. Slots below C have stamp 0, so their vectors are judged together at the first row count;
// where the row count is still the first one, so are all.
pub fn vectors_fit(clock: &[u32], log: &[u32], slots: &[u32], words: &[u64]) -> bool
    requires in_bounds { (6 ≤ length clock.now) × (288 ≤ length slots.now) × (3072 ≤ length words.now)
        × (2048 ≤ length log.now) }
    requires clock_value { (clock_fits clock.now ≡ true) × (records_fit clock.now log.now ≡ true)
        × (slots_fit clock.now slots.now ≡ true) }
    ensures { result ≡ vectors_fit clock.now log.now slots.now words.now }
{
    let c = tables::clock_of(clock);
    let n = tables::slots_used(clock) as usize;
    let first = c.first.0 as usize;
    if c.rows.0 == c.first.0 {
        return vectors::tails_clear(words, n, first);
    }
    let whole = c.values.0 as usize;
    vectors::tails_clear(words, whole, first)
        && each_vector_fits(log, slots, words, c.first, whole, n)
}
