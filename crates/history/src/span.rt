// The rows of a span of values at a stamp, as a vector.
ghost use Rattle.std.specs.Prelude.{◌≡◌, ◌||◌, length};
ghost use Rattle.bits.specs.Vec.{vec};
ghost use Rattle.bits.specs.Words.{bit_at};
ghost use Rattle.history.specs.Query.{queried_at};
ghost use Rattle.history.specs.Span.{spanned_at, SpanReady};

use crate::{chain, mask, vector};
use tables::{NumberTables, Stamp, Value};

// The rows that the query of v at s shows are set too.
fn add_value(all: &mut [u64], t: NumberTables, s: Stamp, v: Value)
    requires { (length all.old ≡ 32) × SpanReady t.slots.now t.words.now
        t.heads.now t.log.now t.changes.now s.0 v.0 }
    ensures { all.new ≡ vec (λ r. bit_at all.old r || queried_at t.entry.slots.now t.entry.words.now
        t.entry.heads.now t.entry.log.now t.entry.changes.now s.0 v.0 r) 32 }
{
    let base = chain::base_of(t.slots, t.heads, t.log, v, s);
    let mask = mask::flips(t.changes, base.from, tables::end_at(t.log, s), v);
    let own = vector::slot_words(t.words, base.slot);
    vectors::merge(all, own, &mask);
}

// The rows that the query of one of the values `first` to `last` at s shows.
pub fn span_at(t: NumberTables, s: Stamp, first: Value, last: Value) -> [u64; 32]
    requires { SpanReady t.slots.now t.words.now t.heads.now t.log.now t.changes.now s.0 last.0 }
    ensures { result ≡ vec (spanned_at t.entry.slots.now t.entry.words.now t.entry.heads.now
        t.entry.log.now t.entry.changes.now s.0 first.0 last.0) 32 }
{
    let mut all = [0u64; 32];
    for v in first.0..=last.0 {
        add_value(&mut all, t, s, Value(v));
    }
    all
}
