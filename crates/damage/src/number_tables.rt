// The number tables: whether none is damaged.
ghost use Rattle.std.specs.Prelude.{◌≡◌};
ghost use Rattle.tables.specs.Room.{Roomy};
ghost use Rattle.damage.specs.Numbers.{numbers_fit};

use crate::{clock, slots, tails};
use tables::NumberTables;

// Whether the number tables are not damaged.
#[tactic(auto, unfolding(crate::specs::Numbers::numbers_fit))]
pub fn numbers_fit(t: NumberTables) -> bool
    requires { Roomy t.clock.now t.slots.now t.words.now t.heads.now t.log.now t.changes.now }
    ensures { result ≡ numbers_fit t.entry.clock.now t.entry.slots.now t.entry.words.now t.entry.heads.now
        t.entry.log.now t.entry.changes.now }
{
    clock::clock_fits(t.clock)
        && record_damage::records_fit(t.clock, t.log)
        && change_damage::changes_fit(t.clock, t.log, t.changes)
        && slots::slots_fit(t.clock, t.slots)
        && slots::heads_fit(t.clock, t.slots, t.heads)
        && tails::vectors_fit(t.clock, t.log, t.slots, t.words)
}
