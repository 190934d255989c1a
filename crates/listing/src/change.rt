// Update, delete and insert: they write only to the session's list.
ghost use Rattle.std.specs.Prelude.{◌≡◌, [], ◌<◌, ◌≤◌};
ghost use Rattle.rules.specs.Lists as rules;
ghost use Rattle.tables.specs.Cells.{values_in};
ghost use Rattle.tables.specs.Shown.{shown};
ghost use Rattle.tables.specs.Meaning.{entries};
ghost use Rattle.history.specs.Read.{standing_of, read_cells};
ghost use Rattle.outcomes.specs.Calls.{spot_of, update_of, delete_of, insert_of};
ghost use Rattle.outcomes.specs.Seats.{Serves, list_answer, relisting};
ghost use Rattle.outcomes.specs.Opened.{Usable, SettlesAny};
ghost use Rattle.listing.specs.Change.{append_of, target_put, ChangesRow, Stands};

use lent::Seat;
use tables::{NumberTables, Refusal, Row, Session, Value};

// The row's standing value: its listed target if any, otherwise its read at the start.
fn standing(t: NumberTables, s: Session, row: Row, spot: usize) -> Option<Value>
    requires { Stands t.clock.now t.slots.now t.words.now t.heads.now t.log.now t.changes.now s row.0 spot }
    ensures { standing_of result ≡ rules.standing (rules.target (entries s) row.0)
        (read_cells t.entry.slots.now t.entry.words.now t.entry.heads.now t.entry.log.now t.entry.changes.now
        (values_in t.entry.clock.now) s.start.0 row.0) }
{
    if spot < s.count as usize {
        return outcomes::target_of(s.to[spot]);
    }
    let c = tables::clock_of(t.clock);
    history::read_at(t, c.values, s.start, row)
}

// The session with an entry more.
#[tactic(auto, using(crate::proofs::ChangeLaws::appends))]
fn appended(s: Session, at: u16, to: u8) -> Result<Session, Refusal>
    ensures { SettlesAny s (relisting result) (list_answer result) (λ t n. append_of t n at to) }
{
    if tables::MAX_ENTRIES <= s.count {
        return Err(Refusal::ListFull);
    }
    Ok(tables::with_entry(s, s.count as usize, at, to, s.count + 1))
}

// The session with the row's target: in its entry where it is listed, otherwise in an entry more.
#[tactic(auto, using(crate::proofs::ChangeLaws::puts))]
fn listed(s: Session, row: Row, to: u8, spot: usize) -> Result<Session, Refusal>
    requires { (s.count ≤ 32) × (row.0 < 65535) × (spot ≡ spot_of s row.0) }
    ensures { SettlesAny s (relisting result) (list_answer result) (λ t n. target_put t n row.0 to) }
{
    let at = row.0 as u16;
    if spot < s.count as usize {
        return Ok(tables::with_entry(s, spot, at, to, s.count));
    }
    appended(s, at, to)
}

// Update or delete of a row in an open session: 7, 8 and 9, and the list.
fn change_row(t: NumberTables, s: Session, row: Row, to: u8) -> Result<Session, Refusal>
    requires { Usable t.clock.now t.slots.now t.words.now t.heads.now t.log.now t.changes.now s }
    ensures { ChangesRow (shown t.entry) s row.0 to result }
{
    if s.rows.0 <= row.0 {
        return Err(Refusal::NoRow);
    }
    let spot = outcomes::spot_of(s, row);
    let Some(_) = standing(t, s, row, spot) else {
        return Err(Refusal::RowAbsent);
    };
    listed(s, row, to, spot)
}

// Update: the row's target is the value.
#[tactic(auto, using(crate::proofs::ChangeCores::updates))]
pub fn update_in(
    t: NumberTables,
    seat: Seat,
    n: u64,
    row: Row,
    v: Value,
) -> Result<Session, Refusal>
    ensures { Serves (shown t.entry) (shown t.entry) [] seat n (relisting result n) (list_answer result)
        (λ all. update_of all n row.0 v.0) }
{
    outcomes::valued(t, seat, n, v)?;
    change_row(t, seat.session, row, v.0 as u8)
}

// Delete: the row's target is absent.
#[tactic(auto, using(crate::proofs::ChangeCores::deletes))]
pub fn delete_in(t: NumberTables, seat: Seat, n: u64, row: Row) -> Result<Session, Refusal>
    ensures { Serves (shown t.entry) (shown t.entry) [] seat n (relisting result n) (list_answer result)
        (λ all. delete_of all n row.0) }
{
    outcomes::opened(t, seat, n)?;
    change_row(t, seat.session, row, 255)
}

// Insert: an entry more, with the value.
#[tactic(auto, using(crate::proofs::ChangeCores::inserts))]
pub fn insert_in(t: NumberTables, seat: Seat, n: u64, v: Value) -> Result<Session, Refusal>
    ensures { Serves (shown t.entry) (shown t.entry) [] seat n (relisting result n) (list_answer result)
        (λ all. insert_of all n v.0) }
{
    outcomes::valued(t, seat, n, v)?;
    appended(seat.session, tables::NEW, v.0 as u8)
}
