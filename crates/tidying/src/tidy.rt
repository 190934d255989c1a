// Tidy: its refusals, and what it writes: a version, a record, the clock. The functions that write take slices, no view of the number
// tables: one table is written while others are read.
ghost use Rattle.std.specs.Prelude.{◌≡◌, [], ◌∷◌, ◌+◌, ◌*◌, ◌<◌, ◌≤◌, length, set};
ghost use Rattle.bits.specs.Bit.{xorb};
ghost use Rattle.bits.specs.Part.{put_part};
ghost use Rattle.bits.specs.Rows.{count_of, rows_of, word_rows};
ghost use Rattle.bits.specs.Vec.{vec};
ghost use Rattle.bits.specs.Words.{bit_at};
ghost use Rattle.rules.specs.Refusals.{first_of};
ghost use Rattle.tables.specs.Cells.{tables, stamp_in, slots_in, changes_in, head_of};
ghost use Rattle.tables.specs.Clock.{clock_in, later};
ghost use Rattle.tables.specs.Stores.{put_slot, put_head};
ghost use Rattle.history.specs.Query.{queried_at};
ghost use Rattle.history.specs.Version.{Headed};
ghost use Rattle.outcomes.specs.Said.{numbers_of, numbers};
ghost use Rattle.outcomes.specs.Calls.{tidy_of};
ghost use Rattle.outcomes.specs.Seats.{Serves, untouched};
ghost use Rattle.outcomes.specs.Enter.{why_of};
ghost use Rattle.tidying.specs.Tidy.{touched_in, stale_at, Datable, tidy_tests, RowsPut, Puttable, Fillable};
ghost use Rattle.tidying.specs.Tidy.{VersionPut, Tidyable, TidyReady, Plannable, plan_of, tidy_clock, tidy_log};
ghost use Rattle.tidying.specs.Tidy.{Tidied, Tidies};

use lent::Seat;
use outcomes::Answer;
use tables::{Clock, Kind, NumberTables, Refusal, Row, Stamp, Value};

// Whether one of the changes from `from` to `to` names a moved row or has v.
fn touched(changes: &[u32], from: usize, to: usize, moved: &[u64; 32], v: Value) -> bool
    requires { (to ≤ 2048) × (4096 ≤ length changes.now) × (v.0 < 32) }
    ensures { result ≡ touched_in changes.now from to moved.now v.0 }
{
    for p in from..to {
        let row = tables::change_row(changes, p);
        if vectors::get(moved, row.0 as usize) || bits::has(tables::change_set(changes, p), v.0) {
            return true;
        }
    }
    false
}

// Whether a tidy of v at s is stale.
#[tactic(auto, unfolding(crate::specs::Tidy::stale_at))]
fn stale(t: NumberTables, last: Stamp, s: Stamp, v: Value, moved: &[u64; 32]) -> bool
    requires { Datable t.slots.now t.heads.now t.log.now t.changes.now last.0 s.0 v.0 }
    ensures { result ≡ stale_at t.entry.slots.now t.entry.heads.now t.entry.log.now t.entry.changes.now
        last.0 s.0 v.0 moved.now }
{
    let head = tables::slot_stamp(t.slots, tables::head_of(t.heads, v));
    if s.0 < head.0 {
        return true;
    }
    let from = tables::end_at(t.log, s);
    let to = tables::end_at(t.log, last);
    touched(t.changes, from, to, moved, v)
}

// The change of a moved row is written at p: its flip set up to `to` less v, also where that leaves none. The place after it.
#[tactic(auto, using(crate::proofs::MovedLaws::put_one))]
fn put_less(changes: &mut [u32], p: usize, to: usize, row: Row, v: Value) -> usize
    requires { Puttable changes.old p to v.0 1 }
    ensures { RowsPut (row.0 ∷ []) p to v.0 changes.old changes.new result }
{
    let last = history::last_naming(changes, to, row);
    let less = bits::without(history::set_of(last), v.0);
    tables::put_change(changes, p, row, less);
    p + 1
}

// The changes of the moved rows of a word whose first row is `base`, ascending, are written from `start` on, from one set bit to the
// next. The place after them.
fn write_word(changes: &mut [u32], start: usize, to: usize, word: u64, base: u32, v: Value) -> usize
    requires { Puttable changes.old start to v.0 (length (word_rows word base)) × (base + 64 ≤ 65536) }
    ensures { RowsPut (word_rows word base) start to v.0 changes.old changes.new result }
{
    let mut p = start;
    let mut x = word;
    while x != 0 {
        p = put_less(changes, p, to, Row(base + x.trailing_zeros()), v);
        x &= x - 1;
    }
    p
}

// The changes of the moved rows, ascending, are written from `from` on.
fn write_moved(changes: &mut [u32], from: usize, to: usize, moved: &[u64], v: Value)
    requires { Puttable changes.old from to v.0 (count_of moved.now) × (length moved.now ≡ 32) }
    ensures { RowsPut (rows_of moved.now) from to v.0 changes.old changes.new
        (from + count_of moved.now) }
{
    let mut p = from;
    for (i, word) in moved.iter().enumerate() {
        p = write_word(changes, p, to, *word, (i * 64) as u32, v);
    }
}

// The words of a version with the rows of the mask turned over are put into the part of a slot.
fn fill(part: &mut [u64], base: &[u64; 32], mask: &[u64; 32])
    requires { length part.old ≡ 32 }
    ensures { part.new ≡ vec (λ r. xorb (bit_at base.now r) (bit_at mask.now r)) 32 }
{
    vectors::xor_into(part, base, mask);
}

// The vector queried at s is put into the words of slot k, and into no others.
fn write_vector(
    slots: &[u32],
    words: &mut [u64],
    heads: &[u32],
    log: &[u32],
    changes: &[u32],
    k: u32,
    s: Stamp,
    v: Value,
)
    requires { Fillable slots.now words.old heads.now log.now changes.now k s.0 v.0 }
    ensures { words.new ≡ put_part (32 * k)
        (vec
        (queried_at slots.now words.old heads.now log.now changes.now
        s.0 v.0) 32) words.old }
{
    let base = history::base_of(slots, heads, log, v, s);
    let mask = history::flips(changes, base.from, tables::end_at(log, s), v);
    let mut own = [0u64; 32];
    vectors::copy(&mut own, history::slot_words(words, base.slot));
    let a = 32 * k as usize;
    let e = a + 32;
    fill(&mut words[a..e], &own, &mask);
}

// Slot k becomes v's newest: linked to the old head, and the head names it.
fn link_slot(slots: &mut [u32], heads: &mut [u32], k: u32, stamp: Stamp, v: Value)
    requires { Headed slots.old heads.old v.0 × (k < 96) }
    ensures { (slots.new ≡ put_slot slots.old k v.0 stamp.0 (head_of heads.old v.0 + 1)) ×
        (heads.new ≡ put_head heads.old v.0 k) }
{
    let link = tables::head_of(heads, v) as u32 + 1;
    tables::put_slot(slots, k as usize, v, stamp, link);
    tables::put_head(heads, v, k);
}

// The new version of v in slot k: its vector, its cells, and the head.
fn write_version(
    slots: &mut [u32],
    words: &mut [u64],
    heads: &mut [u32],
    log: &[u32],
    changes: &[u32],
    k: u32,
    stamp: Stamp,
    s: Stamp,
    v: Value,
)
    requires { Fillable slots.old words.old heads.old log.now changes.now k s.0 v.0 }
    ensures { VersionPut slots.old words.old heads.old log.now
        changes.now k stamp.0 s.0 v.0 slots.new words.new heads.new }
{
    write_vector(slots, words, heads, log, changes, k, s, v);
    link_slot(slots, heads, k, stamp, v);
}

// The moment, the slots and the changes in use are written.
fn write_counts(clock: &mut [u32], c: Clock, slots: u32, changes: u32)
    requires { 6 ≤ length clock.old }
    ensures { clock.new ≡ set (set (set (set clock.old 2 c.stamp.0) 3 c.rows.0) 4 slots) 5 changes }
{
    tables::put_moment(clock, c);
    tables::put_slots_used(clock, slots);
    tables::put_changes_used(clock, changes);
}

// The record of a tidy and the clock after it are written.
#[tactic(auto, unfolding(tables::specs::Clock::later, tables::specs::Clock::clock_in))]
fn write_tidy(clock: &mut [u32], log: &mut [u32], next: Clock, moved: u32) -> Answer
    requires { (next ≡ later (clock_in clock.old) (clock_in clock.old).rows) × (6 ≤ length clock.old) ×
        (2048 ≤ length log.old) × (stamp_in clock.old < 512) × (changes_in clock.old + moved ≤ 2048) ×
        (slots_in clock.old < 96) }
    ensures { (clock.new ≡ tidy_clock clock.old moved) ×
        (log.new ≡ tidy_log clock.old log.old moved) ×
        (numbers_of result ≡ numbers ((stamp_in clock.old + 1) ∷ moved ∷ [])) }
{
    let end = tables::changes_used(clock) + moved;
    let slots = tables::slots_used(clock) + 1;
    tables::put_record(log, next.stamp, Kind::Tidy as u32, next.rows, end);
    write_counts(clock, next, slots, end);
    Answer::At(next.stamp, Row(moved))
}

// The refusals 13, 14, 16, 17 and 18.
#[tactic(auto, using(crate::proofs::StaleLaws::count_few), unfolding(crate::specs::Tidy::tidy_tests, tables::specs::Clock::clock_in))]
fn ready(t: NumberTables, s: Stamp, v: Value, moved: &[u64; 32]) -> Result<(), Refusal>
    requires { (6 ≤ length t.clock.now) × Datable t.slots.now t.heads.now t.log.now t.changes.now (stamp_in t.clock.now) s.0 v.0 }
    ensures { why_of result ≡ first_of
        (tidy_tests t.entry.clock.now t.entry.slots.now t.entry.heads.now t.entry.log.now t.entry.changes.now
        s.0 v.0 moved.now) }
{
    let c = tables::clock_of(t.clock);
    let count = vectors::count(moved);
    if count == 0 {
        return Err(Refusal::NothingToMove);
    }
    if stale(t, c.stamp, s, v, moved) {
        return Err(Refusal::Stale);
    }
    if tables::MAX_RECORDS <= c.stamp.0 {
        return Err(Refusal::RecordsFull);
    }
    if (tables::MAX_CHANGES as usize) < tables::changes_used(t.clock) as usize + count {
        return Err(Refusal::ChangesFull);
    }
    if tables::MAX_SLOTS <= tables::slots_used(t.clock) {
        return Err(Refusal::SlotsFull);
    }
    Ok(())
}

// What an accepted tidy comes to, before it writes: the clock after it, its slot, where its changes start, where those up to its
// session's start end, and how many rows it moves.
#[derive(Clone, Copy)]
pub struct Plan {
    pub next: Clock,
    pub slot: u32,
    pub used: usize,
    pub to: usize,
    pub count: u32,
}

// The plan of a tidy at s.
#[tactic(auto, unfolding(crate::specs::Tidy::plan_of, tables::specs::Clock::clock_in))]
fn planned(clock: &[u32], log: &[u32], s: Stamp, moved: &[u64; 32]) -> Plan
    requires { Plannable clock.now log.now s.0 moved.now }
    ensures { result ≡ plan_of clock.now log.now s.0 moved.now }
{
    let c = tables::clock_of(clock);
    Plan {
        next: lent::ticked(c, c.rows),
        slot: tables::slots_used(clock),
        used: tables::changes_used(clock) as usize,
        to: tables::end_at(log, s),
        count: vectors::count(moved) as u32,
    }
}

// A tidy that is not refused.
fn tidy_work(
    clock: &mut [u32],
    slots: &mut [u32],
    words: &mut [u64],
    heads: &mut [u32],
    log: &mut [u32],
    changes: &mut [u32],
    s: Stamp,
    v: Value,
    moved: &[u64; 32],
) -> Answer
    requires { TidyReady clock.old slots.old words.old heads.old log.old changes.old s.0 v.0 moved.now }
    ensures { Tidied
        (tables clock.old slots.old words.old heads.old log.old
        changes.old)
        (tables clock.new slots.new words.new heads.new log.new
        changes.new) s.0 v.0 moved.now result }
{
    let plan = planned(clock, log, s, moved);
    write_version(
        slots,
        words,
        heads,
        log,
        changes,
        plan.slot,
        plan.next.stamp,
        s,
        v,
    );
    write_moved(changes, plan.used, plan.to, moved, v);
    write_tidy(clock, log, plan.next, plan.count)
}

// Tidy of v at s on undamaged tables.
fn tidy_at(
    clock: &mut [u32],
    slots: &mut [u32],
    words: &mut [u64],
    heads: &mut [u32],
    log: &mut [u32],
    changes: &mut [u32],
    s: Stamp,
    v: Value,
) -> Result<Answer, Refusal>
    requires { Tidyable clock.old slots.old words.old heads.old log.old changes.old s.0 v.0 }
    ensures { Tidies
        (tables clock.old slots.old words.old heads.old log.old
        changes.old)
        (tables clock.new slots.new words.new heads.new log.new
        changes.new) s.0 v.0 result }
{
    let t = NumberTables {
        clock,
        slots,
        words,
        heads,
        log,
        changes,
    };
    // every row is asked for, so that one pass over the changes serves; the sets of those that move are looked up from s back
    let moved = history::flips(t.changes, 0, tables::end_at(t.log, s), v);
    ready(t, s, v, &moved)?;
    Ok(tidy_work(clock, slots, words, heads, log, changes, s, v, &moved))
}

// Tidy: the stamp after it and how many rows moved.
pub fn tidy_in(
    clock: &mut [u32],
    slots: &mut [u32],
    words: &mut [u64],
    heads: &mut [u32],
    log: &mut [u32],
    changes: &mut [u32],
    seat: Seat,
    n: u64,
    v: Value,
) -> Result<Answer, Refusal>
    ensures { Serves
        (tables clock.old slots.old words.old heads.old log.old
        changes.old)
        (tables clock.new slots.new words.new heads.new log.new
        changes.new) [] seat n untouched result (λ t. tidy_of t n v.0) }
{
    let t = NumberTables {
        clock,
        slots,
        words,
        heads,
        log,
        changes,
    };
    outcomes::valued(t, seat, n, v)?;
    tidy_at(
        clock,
        slots,
        words,
        heads,
        log,
        changes,
        seat.session.start,
        v,
    )
}
