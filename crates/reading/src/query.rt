// Query, the picker, and read.
ghost use Rattle.std.specs.Prelude.{◌≡◌, [], ◌∷◌};
ghost use Rattle.tables.specs.Shown.{shown};
ghost use Rattle.outcomes.specs.Seats.{Serves, untouched};
ghost use Rattle.outcomes.specs.Calls.{read_of};
ghost use Rattle.outcomes.specs.Query.{query_of, picked_from};
ghost use Rattle.outcomes.specs.Said.{place_of};

use lent::Seat;
use outcomes::{Answer, Place};
use tables::{NumberTables, Refusal, Row, Value};

// Query: the slot's own words where no row is flipped, the scratch's otherwise.
#[tactic(auto, using(crate::proofs::QueryLaws::queries))]
pub fn query_in(
    t: NumberTables,
    scratch: &mut [u64],
    seat: Seat,
    n: u64,
    v: Value,
    threshold: u64,
) -> Result<Answer, Refusal>
    ensures { Serves (shown t.entry) (shown t.entry) (scratch.new ∷ []) seat n untouched result
        (λ all. query_of all scratch.old n v.0 threshold) }
{
    outcomes::valued(t, seat, n, v)?;
    if scratch.len() < 32 {
        return Err(Refusal::ShortScratch);
    }
    let found = history::query_at(t, scratch, seat.session.start, v);
    if found.flips == 0 {
        return Ok(Answer::Listed(0, false, Place::Slot(found.slot)));
    }
    let due = threshold < u64::from(found.flips);
    Ok(Answer::Listed(found.flips, due, Place::Scratch))
}

// The words that a query answered: the slot's own, or the scratch's first 32; an empty part where they were not lent.
#[tactic(auto, unfolding(outcomes::specs::Query::picked_from))]
pub fn picked<'a>(words: &'a [u64], scratch: &'a [u64], place: Place) -> &'a [u64]
    ensures { result.now ≡ picked_from words.now scratch.now (place_of place) }
{
    match place {
        Place::Scratch if 32 <= scratch.len() => &scratch[..32],
        Place::Slot(i) if i < 96 && 32 * i + 32 <= words.len() => &words[32 * i..32 * i + 32],
        _ => &words[..0],
    }
}

// Read: the row's value at the session's start, or that it is absent.
#[tactic(auto, using(crate::proofs::ReadLaws::reads))]
pub fn read_in(t: NumberTables, seat: Seat, n: u64, row: Row) -> Result<Answer, Refusal>
    ensures { Serves (shown t.entry) (shown t.entry) [] seat n untouched result (λ all. read_of all n row.0) }
{
    outcomes::opened(t, seat, n)?;
    let s = seat.session;
    if s.rows.0 <= row.0 {
        return Err(Refusal::NoRow);
    }
    let c = tables::clock_of(t.clock);
    Ok(Answer::Read(history::read_at(t, c.values, s.start, row)))
}
