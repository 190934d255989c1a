// The refusals that the calls share: 1, 2, 4, 5 and 6.
ghost use Rattle.std.specs.Prelude.{◌≡◌};
ghost use Rattle.outcomes.specs.Enter.{why_of, placed_by, in_reach, opened_by, valued_by};

use lent::Seat;
use tables::{NumberTables, Refusal, Row, Stamp, Value};

// 1, 2 and 4: room, damage, the session's number.
#[tactic(auto, unfolding(crate::specs::Enter::entered_by))]
pub fn placed(t: NumberTables, places: usize, fit: bool, n: u64) -> Result<(), Refusal>
    ensures { why_of result ≡ placed_by t.entry.clock.now t.entry.slots.now t.entry.words.now t.entry.heads.now
        t.entry.log.now t.entry.changes.now places fit n }
{
    if !damage::room(t, places) {
        return Err(Refusal::NoRoom);
    }
    if !fit {
        return Err(Refusal::Damaged);
    }
    if !damage::numbers_fit(t) {
        return Err(Refusal::Damaged);
    }
    if 15 < n {
        return Err(Refusal::NoSession);
    }
    Ok(())
}

// Whether a session's numbers are within reach: its start not after the stamp, at most 2,048 rows and 32 entries.
fn in_reach(stamp: Stamp, start: Stamp, rows: Row, count: u32) -> bool
    ensures { result ≡ in_reach stamp.0 start.0 rows.0 count }
{
    (start.0 <= stamp.0) & (rows.0 <= tables::MAX_ROWS) & (count <= tables::MAX_ENTRIES)
}

// The same, and 5: the session is open. A session that no undamaged tables have is damage: a seat that was made of the tables
// never comes to that.
pub fn opened(t: NumberTables, seat: Seat, n: u64) -> Result<(), Refusal>
    ensures { why_of result ≡ opened_by t.entry.clock.now t.entry.slots.now t.entry.words.now t.entry.heads.now
        t.entry.log.now t.entry.changes.now seat n }
{
    placed(t, seat.places, seat.fit, n)?;
    let s = seat.session;
    if s.live != 1 {
        return Err(Refusal::NotOpen);
    }
    let c = tables::clock_of(t.clock);
    if !in_reach(c.stamp, s.start, s.rows, s.count) {
        return Err(Refusal::Damaged);
    }
    Ok(())
}

// The same, and 6: the value is below C.
pub fn valued(t: NumberTables, seat: Seat, n: u64, v: Value) -> Result<(), Refusal>
    ensures { why_of result ≡ valued_by t.entry.clock.now t.entry.slots.now t.entry.words.now t.entry.heads.now
        t.entry.log.now t.entry.changes.now seat n v.0 }
{
    opened(t, seat, n)?;
    let c = tables::clock_of(t.clock);
    if c.values.0 <= v.0 {
        return Err(Refusal::NoValue);
    }
    Ok(())
}
