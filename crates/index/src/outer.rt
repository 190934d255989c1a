// The calls, over every lent table: each finds its seat and goes through its core, with the caller's numbers as rows and values; then its
// session is opened, put back or freed, where the core did not refuse. Each table is a parameter, as C lends it; a struct of seven `&mut`
// would have each contract name seven parts at the exit, and promise of each that it is still the same one.
ghost use Rattle.std.specs.Prelude.{◌≡◌, [], ◌∷◌};
ghost use Rattle.tables.specs.Cells.{tables};
ghost use Rattle.outcomes.specs.Said.{said};
ghost use Rattle.outcomes.specs.Outcome.{outcome};
ghost use Rattle.outcomes.specs.Calls.{create_of, begin_of, read_of, update_of, delete_of, insert_of, commit_of, tidy_of, abort_of};
ghost use Rattle.outcomes.specs.Query.{query_of};
ghost use Rattle.outcomes.specs.Span.{span_of};

use outcomes::{Answer, Begun};
use tables::{NumberTables, Refusal, Session};

// Create: the row count.
pub fn create(
    clock: &mut [u32],
    slots: &mut [u32],
    words: &mut [u64],
    heads: &mut [u32],
    log: &mut [u32],
    changes: &mut [u32],
    sessions: &mut [Session],
    c: u64,
    column: &[u8],
) -> Result<Answer, Refusal>
    ensures { outcome
        (tables clock.new slots.new words.new heads.new
        log.new changes.new sessions.new) [] (said result) ≡ create_of
        (tables clock.old slots.old words.old heads.old
        log.old changes.old sessions.old) c column.now }
{
    let places = lent::places(sessions);
    let answer = creating::create_in(clock, slots, words, heads, log, changes, places, c, column)?;
    lent::free_all(sessions);
    Ok(answer)
}

// Begin: the start stamp and row count.
pub fn begin(
    clock: &mut [u32],
    slots: &mut [u32],
    words: &mut [u64],
    heads: &mut [u32],
    log: &mut [u32],
    changes: &mut [u32],
    sessions: &mut [Session],
    n: u64,
) -> Result<Answer, Refusal>
    ensures { outcome
        (tables clock.new slots.new words.new heads.new
        log.new changes.new sessions.new) [] (said result) ≡ begin_of
        (tables clock.old slots.old words.old heads.old
        log.old changes.old sessions.old) n }
{
    let seat = lent::seat_of(clock, log, sessions, n);
    let t = NumberTables {
        clock,
        slots,
        words,
        heads,
        log,
        changes,
    };
    match listing::begin_in(t, seat, n)? {
        Begun::Opened(start, rows) => {
            lent::open(sessions, n, start, rows);
            Ok(Answer::At(start, rows))
        }
        Begun::Stands(start, rows) => Ok(Answer::At(start, rows)),
    }
}

// Query: the flip count, whether a tidy is due, and where the words stand; the words themselves are `picked`.
pub fn query(
    clock: &mut [u32],
    slots: &mut [u32],
    words: &mut [u64],
    heads: &mut [u32],
    log: &mut [u32],
    changes: &mut [u32],
    sessions: &mut [Session],
    scratch: &mut [u64],
    n: u64,
    v: u64,
    threshold: u64,
) -> Result<Answer, Refusal>
    ensures { outcome
        (tables clock.new slots.new words.new heads.new
        log.new changes.new sessions.new) (scratch.new ∷ []) (said result) ≡ query_of
        (tables clock.old slots.old words.old heads.old
        log.old changes.old sessions.old) scratch.old n v threshold }
{
    let seat = lent::seat_of(clock, log, sessions, n);
    let t = NumberTables {
        clock,
        slots,
        words,
        heads,
        log,
        changes,
    };
    reading::query_in(t, scratch, seat, n, outcomes::value_of(v), threshold)
}

// Span: how many rows hold a value from `first` to `last`; they stand in the list's first cells, ascending, each once.
pub fn span(
    clock: &mut [u32],
    slots: &mut [u32],
    words: &mut [u64],
    heads: &mut [u32],
    log: &mut [u32],
    changes: &mut [u32],
    sessions: &mut [Session],
    list: &mut [u16],
    n: u64,
    first: u64,
    last: u64,
) -> Result<Answer, Refusal>
    ensures { outcome
        (tables clock.new slots.new words.new heads.new
        log.new changes.new sessions.new) (list.new ∷ []) (said result) ≡ span_of
        (tables clock.old slots.old words.old heads.old
        log.old changes.old sessions.old) list.old n first last }
{
    let seat = lent::seat_of(clock, log, sessions, n);
    let t = NumberTables {
        clock,
        slots,
        words,
        heads,
        log,
        changes,
    };
    let low = outcomes::value_of(first);
    let high = outcomes::value_of(last);
    reading::span_in(t, list, seat, n, low, high)
}

// Read: the row's value, or that it is absent.
pub fn read(
    clock: &mut [u32],
    slots: &mut [u32],
    words: &mut [u64],
    heads: &mut [u32],
    log: &mut [u32],
    changes: &mut [u32],
    sessions: &mut [Session],
    n: u64,
    row: u64,
) -> Result<Answer, Refusal>
    ensures { outcome
        (tables clock.new slots.new words.new heads.new
        log.new changes.new sessions.new) [] (said result) ≡ read_of
        (tables clock.old slots.old words.old heads.old
        log.old changes.old sessions.old) n row }
{
    let seat = lent::seat_of(clock, log, sessions, n);
    let t = NumberTables {
        clock,
        slots,
        words,
        heads,
        log,
        changes,
    };
    reading::read_in(t, seat, n, outcomes::row_of(row))
}

// Update: the list's length.
pub fn update(
    clock: &mut [u32],
    slots: &mut [u32],
    words: &mut [u64],
    heads: &mut [u32],
    log: &mut [u32],
    changes: &mut [u32],
    sessions: &mut [Session],
    n: u64,
    row: u64,
    v: u64,
) -> Result<Answer, Refusal>
    ensures { outcome
        (tables clock.new slots.new words.new heads.new
        log.new changes.new sessions.new) [] (said result) ≡ update_of
        (tables clock.old slots.old words.old heads.old
        log.old changes.old sessions.old) n row v }
{
    let seat = lent::seat_of(clock, log, sessions, n);
    let t = NumberTables {
        clock,
        slots,
        words,
        heads,
        log,
        changes,
    };
    let session = listing::update_in(t, seat, n, outcomes::row_of(row), outcomes::value_of(v))?;
    lent::put(sessions, n, session);
    Ok(Answer::Count(session.count))
}

// Delete: the list's length.
pub fn delete(
    clock: &mut [u32],
    slots: &mut [u32],
    words: &mut [u64],
    heads: &mut [u32],
    log: &mut [u32],
    changes: &mut [u32],
    sessions: &mut [Session],
    n: u64,
    row: u64,
) -> Result<Answer, Refusal>
    ensures { outcome
        (tables clock.new slots.new words.new heads.new
        log.new changes.new sessions.new) [] (said result) ≡ delete_of
        (tables clock.old slots.old words.old heads.old
        log.old changes.old sessions.old) n row }
{
    let seat = lent::seat_of(clock, log, sessions, n);
    let t = NumberTables {
        clock,
        slots,
        words,
        heads,
        log,
        changes,
    };
    let session = listing::delete_in(t, seat, n, outcomes::row_of(row))?;
    lent::put(sessions, n, session);
    Ok(Answer::Count(session.count))
}

// Insert: the list's length.
pub fn insert(
    clock: &mut [u32],
    slots: &mut [u32],
    words: &mut [u64],
    heads: &mut [u32],
    log: &mut [u32],
    changes: &mut [u32],
    sessions: &mut [Session],
    n: u64,
    v: u64,
) -> Result<Answer, Refusal>
    ensures { outcome
        (tables clock.new slots.new words.new heads.new
        log.new changes.new sessions.new) [] (said result) ≡ insert_of
        (tables clock.old slots.old words.old heads.old
        log.old changes.old sessions.old) n v }
{
    let seat = lent::seat_of(clock, log, sessions, n);
    let t = NumberTables {
        clock,
        slots,
        words,
        heads,
        log,
        changes,
    };
    let session = listing::insert_in(t, seat, n, outcomes::value_of(v))?;
    lent::put(sessions, n, session);
    Ok(Answer::Count(session.count))
}

// Commit: the stamp and the row count after it.
pub fn commit(
    clock: &mut [u32],
    slots: &mut [u32],
    words: &mut [u64],
    heads: &mut [u32],
    log: &mut [u32],
    changes: &mut [u32],
    sessions: &mut [Session],
    n: u64,
) -> Result<Answer, Refusal>
    ensures { outcome
        (tables clock.new slots.new words.new heads.new
        log.new changes.new sessions.new) [] (said result) ≡ commit_of
        (tables clock.old slots.old words.old heads.old
        log.old changes.old sessions.old) n }
{
    let seat = lent::seat_of(clock, log, sessions, n);
    let answer = committing::commit_in(clock, slots, words, heads, log, changes, seat, n)?;
    lent::free(sessions, n);
    Ok(answer)
}

// Tidy: the stamp after it, and how many rows moved.
pub fn tidy(
    clock: &mut [u32],
    slots: &mut [u32],
    words: &mut [u64],
    heads: &mut [u32],
    log: &mut [u32],
    changes: &mut [u32],
    sessions: &mut [Session],
    n: u64,
    v: u64,
) -> Result<Answer, Refusal>
    ensures { outcome
        (tables clock.new slots.new words.new heads.new
        log.new changes.new sessions.new) [] (said result) ≡ tidy_of
        (tables clock.old slots.old words.old heads.old
        log.old changes.old sessions.old) n v }
{
    let seat = lent::seat_of(clock, log, sessions, n);
    tidying::tidy_in(
        clock,
        slots,
        words,
        heads,
        log,
        changes,
        seat,
        n,
        outcomes::value_of(v),
    )
}

// Abort: the length of the list dropped.
pub fn abort(
    clock: &mut [u32],
    slots: &mut [u32],
    words: &mut [u64],
    heads: &mut [u32],
    log: &mut [u32],
    changes: &mut [u32],
    sessions: &mut [Session],
    n: u64,
) -> Result<Answer, Refusal>
    ensures { outcome
        (tables clock.new slots.new words.new heads.new
        log.new changes.new sessions.new) [] (said result) ≡ abort_of
        (tables clock.old slots.old words.old heads.old
        log.old changes.old sessions.old) n }
{
    let seat = lent::seat_of(clock, log, sessions, n);
    let t = NumberTables {
        clock,
        slots,
        words,
        heads,
        log,
        changes,
    };
    let answer = listing::abort_in(t, seat, n)?;
    lent::free(sessions, n);
    Ok(answer)
}
