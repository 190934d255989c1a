// Number 1: whether every table is lent with room for its full limit.
ghost use Rattle.std.specs.Prelude.{◌≡◌};
ghost use Rattle.tables.specs.Room.{room_for};

use tables::NumberTables;

// Whether every table has room for its full limit; `places` is the length of the session table.
#[tactic(auto, unfolding(tables::specs::Room::room_for))]
pub fn room(t: NumberTables, places: usize) -> bool
    ensures { result ≡ room_for t.entry.clock.now t.entry.slots.now t.entry.words.now t.entry.heads.now
        t.entry.log.now t.entry.changes.now places }
{
    (6 <= t.clock.len())
        & (tables::SLOT_CELLS <= t.slots.len())
        & (tables::SLOT_WORDS <= t.words.len())
        & (tables::HEAD_CELLS <= t.heads.len())
        & (tables::LOG_CELLS <= t.log.len())
        & (tables::CHANGE_CELLS <= t.changes.len())
        & (tables::MAX_SESSIONS as usize <= places)
}
