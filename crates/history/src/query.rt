// The query of a value at a stamp.
ghost use Rattle.std.specs.Prelude.{◌≡◌};
ghost use Rattle.history.specs.Query.{found_at, scratch_at, Ready};

use crate::{chain, mask, vector};
use tables::{NumberTables, Stamp, Value};

// What a query found: the slot of the version, and how many rows are flipped.
#[derive(Clone, Copy)]
pub struct Found {
    pub slot: usize,
    pub flips: u32,
}

// The query of v at s. Where rows are flipped, the scratch's first 32 words become the version's words with those rows
// turned over; where none is, the version's own words are the answer, and the scratch stays.
pub fn query_at(t: NumberTables, scratch: &mut [u64], s: Stamp, v: Value) -> Found
    requires { Ready t.slots.now t.words.now t.heads.now t.log.now
        t.changes.now scratch.old s.0 v.0 }
    ensures { (result ≡ found_at t.entry.slots.now t.entry.heads.now t.entry.log.now t.entry.changes.now
        s.0 v.0)
        × (scratch.new ≡ scratch_at t.entry.slots.now t.entry.words.now t.entry.heads.now
        t.entry.log.now t.entry.changes.now scratch.old s.0 v.0) }
{
    let base = chain::base_of(t.slots, t.heads, t.log, v, s);
    let mask = mask::flips(t.changes, base.from, tables::end_at(t.log, s), v);
    let n = vectors::count(&mask);
    if n == 0 {
        return Found {
            slot: base.slot,
            flips: 0,
        };
    }
    vector::turn_over(scratch, t.words, base.slot, &mask);
    Found {
        slot: base.slot,
        flips: n as u32,
    }
}
