// Span: the rows of any value of a span, listed.
ghost use Rattle.std.specs.Prelude.{[], ◌∷◌};
ghost use Rattle.tables.specs.Shown.{shown};
ghost use Rattle.outcomes.specs.Seats.{Serves, untouched};
ghost use Rattle.outcomes.specs.Span.{span_of};

use lent::Seat;
use outcomes::Answer;
use tables::{NumberTables, Refusal, Value};

// How many rows hold a value from `first` to `last` for the session: they stand in the list's first cells, ascending, each once.
#[tactic(auto, using(crate::proofs::SpanLaws::spans))]
pub fn span_in(
    t: NumberTables,
    list: &mut [u16],
    seat: Seat,
    n: u64,
    first: Value,
    last: Value,
) -> Result<Answer, Refusal>
    ensures { Serves (shown t.entry) (shown t.entry) (list.new ∷ []) seat n untouched result
        (λ all. span_of all list.old n first.0 last.0) }
{
    outcomes::valued(t, seat, n, first)?;
    let c = tables::clock_of(t.clock);
    if c.values.0 <= last.0 {
        return Err(Refusal::NoValue);
    }
    if last.0 < first.0 {
        return Err(Refusal::Backward);
    }
    let all = history::span_at(t, seat.session.start, first, last);
    let k = vectors::count(&all);
    if list.len() < k {
        return Err(Refusal::ShortList);
    }
    vectors::list_rows(list, &all);
    Ok(Answer::Count(k as u32))
}
