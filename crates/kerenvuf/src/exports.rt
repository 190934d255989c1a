// The calls as C calls them: each is the call of the index, and its answer in numbers. What C sees of a call, every lent cell and
// every number of the answer, is what the call's definition says. C calls each by a name and with parameters of its own: so each stands
// alone.
ghost use Rattle.std.specs.Prelude.{◌≡◌, [], ◌∷◌};
ghost use Rattle.tables.specs.Cells.{tables};
ghost use Rattle.outcomes.specs.Calls.{create_of, begin_of, read_of, update_of, delete_of, insert_of, commit_of, tidy_of, abort_of};
ghost use Rattle.outcomes.specs.Query.{query_of};
ghost use Rattle.outcomes.specs.Span.{span_of};
ghost use Rattle.kerenvuf.specs.Heard.{seen, in_numbers};

use crate::in_numbers::KvAnswer;
use tables::Session;

// Create: the row count.
#[unsafe(no_mangle)]
pub extern "C" fn kv_create(
    clock: &mut [u32],
    slots: &mut [u32],
    words: &mut [u64],
    heads: &mut [u32],
    log: &mut [u32],
    changes: &mut [u32],
    sessions: &mut [Session],
    c: u64,
    column: &[u8],
) -> KvAnswer
    ensures { seen
        (tables clock.new slots.new words.new heads.new
        log.new changes.new sessions.new) [] result ≡ in_numbers (create_of
        (tables clock.old slots.old words.old heads.old
        log.old changes.old sessions.old) c column.now) }
{
    KvAnswer::from(index::create(
        clock, slots, words, heads, log, changes, sessions, c, column,
    ))
}

// Begin: the start stamp and row count.
#[unsafe(no_mangle)]
pub extern "C" fn kv_begin(
    clock: &mut [u32],
    slots: &mut [u32],
    words: &mut [u64],
    heads: &mut [u32],
    log: &mut [u32],
    changes: &mut [u32],
    sessions: &mut [Session],
    n: u64,
) -> KvAnswer
    ensures { seen
        (tables clock.new slots.new words.new heads.new
        log.new changes.new sessions.new) [] result ≡ in_numbers (begin_of
        (tables clock.old slots.old words.old heads.old
        log.old changes.old sessions.old) n) }
{
    KvAnswer::from(index::begin(clock, slots, words, heads, log, changes, sessions, n))
}

// Query: the flip count, whether a tidy is due, and where the words stand; `kv_picked` copies them.
#[unsafe(no_mangle)]
pub extern "C" fn kv_query(
    clock: &mut [u32],
    slots: &mut [u32],
    words: &mut [u64],
    heads: &mut [u32],
    log: &mut [u32],
    changes: &mut [u32],
    sessions: &mut [Session],
    scratch: &mut [u64],
    n: u64,
    v: u64,
    threshold: u64,
) -> KvAnswer
    ensures { seen
        (tables clock.new slots.new words.new heads.new
        log.new changes.new sessions.new) (scratch.new ∷ []) result ≡ in_numbers (query_of
        (tables clock.old slots.old words.old heads.old
        log.old changes.old sessions.old) scratch.old n v threshold) }
{
    KvAnswer::from(index::query(
        clock, slots, words, heads, log, changes, sessions, scratch, n, v, threshold,
    ))
}

// Span: how many rows hold a value from `first` to `last`; they stand in the list's first cells, ascending, each once.
#[unsafe(no_mangle)]
pub extern "C" fn kv_span(
    clock: &mut [u32],
    slots: &mut [u32],
    words: &mut [u64],
    heads: &mut [u32],
    log: &mut [u32],
    changes: &mut [u32],
    sessions: &mut [Session],
    list: &mut [u16],
    n: u64,
    first: u64,
    last: u64,
) -> KvAnswer
    ensures { seen
        (tables clock.new slots.new words.new heads.new
        log.new changes.new sessions.new) (list.new ∷ []) result ≡ in_numbers (span_of
        (tables clock.old slots.old words.old heads.old
        log.old changes.old sessions.old) list.old n first last) }
{
    KvAnswer::from(index::span(
        clock, slots, words, heads, log, changes, sessions, list, n, first, last,
    ))
}

// Read: the row's value, or that it is absent.
#[unsafe(no_mangle)]
pub extern "C" fn kv_read(
    clock: &mut [u32],
    slots: &mut [u32],
    words: &mut [u64],
    heads: &mut [u32],
    log: &mut [u32],
    changes: &mut [u32],
    sessions: &mut [Session],
    n: u64,
    row: u64,
) -> KvAnswer
    ensures { seen
        (tables clock.new slots.new words.new heads.new
        log.new changes.new sessions.new) [] result ≡ in_numbers (read_of
        (tables clock.old slots.old words.old heads.old
        log.old changes.old sessions.old) n row) }
{
    KvAnswer::from(index::read(clock, slots, words, heads, log, changes, sessions, n, row))
}

// Update: the list's length.
#[unsafe(no_mangle)]
pub extern "C" fn kv_update(
    clock: &mut [u32],
    slots: &mut [u32],
    words: &mut [u64],
    heads: &mut [u32],
    log: &mut [u32],
    changes: &mut [u32],
    sessions: &mut [Session],
    n: u64,
    row: u64,
    v: u64,
) -> KvAnswer
    ensures { seen
        (tables clock.new slots.new words.new heads.new
        log.new changes.new sessions.new) [] result ≡ in_numbers (update_of
        (tables clock.old slots.old words.old heads.old
        log.old changes.old sessions.old) n row v) }
{
    KvAnswer::from(index::update(
        clock, slots, words, heads, log, changes, sessions, n, row, v,
    ))
}

// Delete: the list's length.
#[unsafe(no_mangle)]
pub extern "C" fn kv_delete(
    clock: &mut [u32],
    slots: &mut [u32],
    words: &mut [u64],
    heads: &mut [u32],
    log: &mut [u32],
    changes: &mut [u32],
    sessions: &mut [Session],
    n: u64,
    row: u64,
) -> KvAnswer
    ensures { seen
        (tables clock.new slots.new words.new heads.new
        log.new changes.new sessions.new) [] result ≡ in_numbers (delete_of
        (tables clock.old slots.old words.old heads.old
        log.old changes.old sessions.old) n row) }
{
    KvAnswer::from(index::delete(clock, slots, words, heads, log, changes, sessions, n, row))
}

// Insert: the list's length.
#[unsafe(no_mangle)]
pub extern "C" fn kv_insert(
    clock: &mut [u32],
    slots: &mut [u32],
    words: &mut [u64],
    heads: &mut [u32],
    log: &mut [u32],
    changes: &mut [u32],
    sessions: &mut [Session],
    n: u64,
    v: u64,
) -> KvAnswer
    ensures { seen
        (tables clock.new slots.new words.new heads.new
        log.new changes.new sessions.new) [] result ≡ in_numbers (insert_of
        (tables clock.old slots.old words.old heads.old
        log.old changes.old sessions.old) n v) }
{
    KvAnswer::from(index::insert(clock, slots, words, heads, log, changes, sessions, n, v))
}

// Commit: the stamp and the row count after it.
#[unsafe(no_mangle)]
pub extern "C" fn kv_commit(
    clock: &mut [u32],
    slots: &mut [u32],
    words: &mut [u64],
    heads: &mut [u32],
    log: &mut [u32],
    changes: &mut [u32],
    sessions: &mut [Session],
    n: u64,
) -> KvAnswer
    ensures { seen
        (tables clock.new slots.new words.new heads.new
        log.new changes.new sessions.new) [] result ≡ in_numbers (commit_of
        (tables clock.old slots.old words.old heads.old
        log.old changes.old sessions.old) n) }
{
    KvAnswer::from(index::commit(clock, slots, words, heads, log, changes, sessions, n))
}

// Tidy: the stamp after it, and how many rows moved.
#[unsafe(no_mangle)]
pub extern "C" fn kv_tidy(
    clock: &mut [u32],
    slots: &mut [u32],
    words: &mut [u64],
    heads: &mut [u32],
    log: &mut [u32],
    changes: &mut [u32],
    sessions: &mut [Session],
    n: u64,
    v: u64,
) -> KvAnswer
    ensures { seen
        (tables clock.new slots.new words.new heads.new
        log.new changes.new sessions.new) [] result ≡ in_numbers (tidy_of
        (tables clock.old slots.old words.old heads.old
        log.old changes.old sessions.old) n v) }
{
    KvAnswer::from(index::tidy(clock, slots, words, heads, log, changes, sessions, n, v))
}

// Abort: the length of the list dropped.
#[unsafe(no_mangle)]
pub extern "C" fn kv_abort(
    clock: &mut [u32],
    slots: &mut [u32],
    words: &mut [u64],
    heads: &mut [u32],
    log: &mut [u32],
    changes: &mut [u32],
    sessions: &mut [Session],
    n: u64,
) -> KvAnswer
    ensures { seen
        (tables clock.new slots.new words.new heads.new
        log.new changes.new sessions.new) [] result ≡ in_numbers (abort_of
        (tables clock.old slots.old words.old heads.old
        log.old changes.old sessions.old) n) }
{
    KvAnswer::from(index::abort(clock, slots, words, heads, log, changes, sessions, n))
}
