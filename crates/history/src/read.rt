// What a row holds at a stamp: its last change is found once, and each value's version is asked whether it came later.
ghost use Rattle.std.specs.Prelude.{◌≡◌, ◌<◌, ◌≤◌, length};
ghost use Rattle.history.specs.Version.{base_seen, Based};
ghost use Rattle.history.specs.Read.{standing_of, read_cells, last_flips, has_after, read_after, Readable, ReadReady};

use crate::changes::Last;
use crate::{chain, changes, vector};
use tables::{NumberTables, Row, Stamp, Value};

// Whether the last change of a row stands at or after `from` and has v.
fn flipped_since(last: Option<Last>, from: usize, v: Value) -> bool
    requires { v.0 < 32 }
    ensures { result ≡ last_flips last from v.0 }
{
    last.is_some_and(|l| (from <= l.at) & bits::has(l.set, v.0))
}

// Whether the query of v at s has the row, whose last change up to s is `last`.
fn row_has(t: NumberTables, s: Stamp, row: Row, last: Option<Last>, v: Value) -> bool
    requires { (3072 ≤ length t.words.now) × Based t.slots.now t.heads.now t.log.now s.0 v.0 }
    ensures { result ≡ has_after (base_seen t.entry.slots.now t.entry.heads.now t.entry.log.now s.0 v.0)
        t.entry.words.now row.0 last v.0 }
{
    let base = chain::base_of(t.slots, t.heads, t.log, v, s);
    let on = vector::slot_has(t.words, base.slot, row);
    on != flipped_since(last, base.from, v)
}

// What the row holds at s, where `last` is its last change up to s: the smallest value whose query has it.
pub fn read_after(
    t: NumberTables,
    values: Value,
    s: Stamp,
    row: Row,
    last: Option<Last>,
) -> Option<Value>
    requires { Readable t.slots.now t.words.now t.heads.now t.log.now values.0 s.0 }
    ensures { standing_of result ≡ read_after t.entry.slots.now t.entry.words.now
        t.entry.heads.now t.entry.log.now values.0 s.0 row.0 last }
{
    for v in 0..values.0 {
        if row_has(t, s, row, last, Value(v)) {
            return Some(Value(v));
        }
    }
    None
}

// What the row holds at s.
pub fn read_at(t: NumberTables, values: Value, s: Stamp, row: Row) -> Option<Value>
    requires { ReadReady t.slots.now t.words.now t.heads.now t.log.now t.changes.now values.0 s.0 }
    ensures { standing_of result ≡ read_cells t.entry.slots.now t.entry.words.now
        t.entry.heads.now t.entry.log.now t.entry.changes.now values.0 s.0 row.0 }
{
    let last = changes::last_naming(t.changes, tables::end_at(t.log, s), row);
    read_after(t, values, s, row, last)
}
