// Begin and abort.
ghost use Rattle.std.specs.Prelude.{[]};
ghost use Rattle.tables.specs.Shown.{shown};
ghost use Rattle.outcomes.specs.Seats.{Serves, begun_answer, opening, freeing};
ghost use Rattle.outcomes.specs.Calls.{begin_of, abort_of};

use lent::Seat;
use outcomes::{Answer, Begun};
use tables::{NumberTables, Refusal};

// Begin: the start that an open session has already, or the current one.
#[tactic(auto, using(crate::proofs::BeginLaws::begins))]
pub fn begin_in(t: NumberTables, seat: Seat, n: u64) -> Result<Begun, Refusal>
    ensures { Serves (shown t.entry) (shown t.entry) [] seat n (opening result n) (begun_answer result) (λ all. begin_of all n) }
{
    outcomes::placed(t, seat.places, seat.fit, n)?;
    let s = seat.session;
    if s.live == 1 {
        return Ok(Begun::Stands(s.start, s.rows));
    }
    let c = tables::clock_of(t.clock);
    Ok(Begun::Opened(c.stamp, c.rows))
}

// Abort: the length of the list dropped.
#[tactic(auto, using(crate::proofs::BeginLaws::aborts))]
pub fn abort_in(t: NumberTables, seat: Seat, n: u64) -> Result<Answer, Refusal>
    ensures { Serves (shown t.entry) (shown t.entry) [] seat n (freeing result n) result (λ all. abort_of all n) }
{
    outcomes::opened(t, seat, n)?;
    Ok(Answer::Count(seat.session.count))
}
