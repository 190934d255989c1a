// What an accepted commit writes: the changes of the listed rows and of the inserts, the record, the clock. Where one of the six tables
// is written while the others are read, they are passed apart, and not as one view.
ghost use Rattle.std.specs.Prelude.{◌≡◌, ◌+◌, ◌<◌, ◌≤◌, length, get_or};
ghost use Rattle.std.proofs.Math.Option.{some};
ghost use Rattle.rules.specs.Lists as rules;
ghost use Rattle.tables.specs.Cells.{values_in, stamp_in, changes_in};
ghost use Rattle.tables.specs.Stores.{put_change};
ghost use Rattle.tables.specs.Meaning.{target_of, entries};
ghost use Rattle.history.specs.Read.{standing_of, ReadReady};
ghost use Rattle.outcomes.specs.Stores.{put_changes};
ghost use Rattle.committing.specs.Commit.{toggled_in, new_cells, insert_cells, RowReady, RowsReady, RowsStored, InsertsReady};
ghost use Rattle.committing.specs.Commit.{Recorded, CommitReady, changes_made, Committed};

use outcomes::Answer;
use tables::{Kind, NumberTables, Row, Session, Stamp, Value};

// A flip set with what a row holds toggled, if it holds a value.
#[tactic(auto, unfolding(crate::specs::Commit::toggled_in))]
pub fn toggled(set: u32, held: Option<Value>) -> u32
    ensures { result ≡ toggled_in set (standing_of held) }
{
    match held {
        Some(v) if v.0 < tables::MAX_VALUES => bits::toggle(set, v.0),
        _ => set,
    }
}

// The new flip set of a listed row: that at the start, with its read and its target toggled.
#[tactic(auto, unfolding(tables::specs::Clock::clock_in))]
fn new_set(t: NumberTables, start: Stamp, row: Row, to: u8) -> u32
    requires { (6 ≤ length t.clock.now) × ReadReady t.slots.now t.words.now t.heads.now t.log.now t.changes.now
        (values_in t.clock.now) start.0 }
    ensures { result ≡ new_cells t.entry.slots.now t.entry.words.now t.entry.heads.now t.entry.log.now
        t.entry.changes.now (values_in t.entry.clock.now) start.0 row.0 (target_of to) }
{
    let c = tables::clock_of(t.clock);
    let last = history::last_naming(t.changes, tables::end_at(t.log, start), row);
    let held = history::read_after(t, c.values, start, row, last);
    let set = toggled(history::set_of(last), held);
    toggled(set, outcomes::target_of(to))
}

// The change of listed row i is written at p.
fn write_row(
    clock: &[u32],
    slots: &[u32],
    words: &[u64],
    heads: &[u32],
    log: &[u32],
    changes: &mut [u32],
    s: Session,
    i: usize,
    p: usize,
)
    requires { RowReady clock.now slots.now words.now heads.now log.now changes.old s i p }
    ensures { changes.new ≡ put_change changes.old p (get_or s.at i 0)
        (new_cells slots.now words.now heads.now log.now changes.old
        (values_in clock.now) s.start.0 (get_or s.at i 0) (target_of (get_or s.to i 0))) }
{
    let row = Row(u32::from(s.at[i]));
    let t = NumberTables {
        clock,
        slots,
        words,
        heads,
        log,
        changes,
    };
    let set = new_set(t, s.start, row, s.to[i]);
    tables::put_change(changes, p, row, set);
}

// The changes of the listed rows are written from `from` on; where they end.
fn write_rows(
    clock: &[u32],
    slots: &[u32],
    words: &[u64],
    heads: &[u32],
    log: &[u32],
    changes: &mut [u32],
    s: Session,
    from: usize,
) -> usize
    requires { RowsReady clock.now slots.now words.now heads.now log.now changes.old s from }
    ensures { RowsStored
        (new_cells slots.now words.now heads.now log.now changes.old
        (values_in clock.now) s.start.0) s from changes.old changes.new s.count result }
{
    let mut p = from;
    for i in 0..s.count as usize {
        if s.at[i] != tables::NEW {
            write_row(clock, slots, words, heads, log, changes, s, i, p);
            p += 1;
        }
    }
    p
}

// The changes of the inserts are written from `from` on, with the row numbers from `rows` on.
fn write_inserts(changes: &mut [u32], s: Session, from: usize, rows: Row)
    requires { InsertsReady changes.old s from rows.0 }
    ensures { changes.new ≡ put_changes changes.old from (insert_cells rows.0 (rules.inserts (entries s))) }
{
    let mut p = from;
    let mut row = rows;
    for i in 0..s.count as usize {
        if s.at[i] == tables::NEW {
            let v = Value(u32::from(s.to[i]));
            tables::put_change(changes, p, row, toggled(0, Some(v)));
            p += 1;
            row.0 += 1;
        }
    }
}

// The changes of a commit are written where those in use end: listed rows first, inserts after.
fn write_changes(
    clock: &[u32],
    slots: &[u32],
    words: &[u64],
    heads: &[u32],
    log: &[u32],
    changes: &mut [u32],
    s: Session,
)
    requires { CommitReady clock.now slots.now words.now heads.now log.now changes.old s }
    ensures { changes.new ≡ put_changes changes.old (changes_in clock.now)
        (changes_made clock.now slots.now words.now heads.now log.now
        changes.old s) }
{
    let c = tables::clock_of(clock);
    let from = tables::changes_used(clock) as usize;
    let p = write_rows(clock, slots, words, heads, log, changes, s, from);
    write_inserts(changes, s, p, c.rows);
}

// The record of a commit and the clock after it are written.
#[tactic(auto, unfolding(tables::specs::Clock::clock_in, tables::specs::Clock::later))]
fn write_commit(clock: &mut [u32], log: &mut [u32], rows: Row, end: u32) -> Answer
    requires { (6 ≤ length clock.old) × (2048 ≤ length log.old) × (stamp_in clock.old < 512) }
    ensures { Recorded clock.old log.old rows.0 end clock.new log.new result }
{
    let c = tables::clock_of(clock);
    let next = lent::ticked(c, rows);
    tables::put_record(log, next.stamp, Kind::Commit as u32, rows, end);
    tables::put_moment(clock, next);
    tables::put_changes_used(clock, end);
    Answer::At(next.stamp, rows)
}

// A commit that is not refused.
pub fn commit_work(
    clock: &mut [u32],
    slots: &[u32],
    words: &[u64],
    heads: &[u32],
    log: &mut [u32],
    changes: &mut [u32],
    s: Session,
) -> Answer
    requires { CommitReady clock.old slots.now words.now heads.now log.old changes.old s }
    ensures { Committed clock.old slots.now words.now heads.now
        log.old changes.old s clock.new log.new changes.new result }
{
    let c = tables::clock_of(clock);
    let after = Row(c.rows.0 + outcomes::inserts(s));
    let end = tables::changes_used(clock) + s.count;
    write_changes(clock, slots, words, heads, log, changes, s);
    write_commit(clock, log, after, end)
}
