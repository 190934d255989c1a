// What a line asks for is done, by the public call of its word. The tables are parameters, as the calls take them.
ghost use Rattle.std.specs.Prelude.{◌≤◌, length};
ghost use Rattle.tables.specs.Cells.{tables};
ghost use Rattle.text.specs.Asked.{asked, taken};
ghost use Rattle.outcomes.specs.Said.{said};
ghost use Rattle.lines.specs.Turn.{Turned};

use outcomes::Answer;
use tables::{Refusal, Session};
use text::Request;

// The call that a request asks for, or 19 where the line could not be read; a column's values are the first of the lent bytes.
pub fn turn(
    clock: &mut [u32],
    slots: &mut [u32],
    words: &mut [u64],
    heads: &mut [u32],
    log: &mut [u32],
    changes: &mut [u32],
    sessions: &mut [Session],
    scratch: &mut [u64],
    column: &[u8],
    wish: Option<Request>,
) -> Result<Answer, Refusal>
    requires { taken wish ≤ length column.now }
    ensures { Turned (tables clock.old slots.old words.old heads.old log.old
        changes.old sessions.old)
        (tables clock.new slots.new words.new heads.new log.new
        changes.new sessions.new)
        scratch.old scratch.new (asked wish column.now) (said result) }
{
    let Some(request) = wish else {
        return Err(Refusal::Unreadable);
    };
    match request {
        Request::Column { values, rows } => index::create(
            clock,
            slots,
            words,
            heads,
            log,
            changes,
            sessions,
            values,
            &column[..rows],
        ),
        Request::Begin { session } => index::begin(
            clock, slots, words, heads, log, changes, sessions, session,
        ),
        Request::Query { session, value } => index::query(
            clock, slots, words, heads, log, changes, sessions, scratch, session, value, 8,
        ),
        Request::Read { session, row } => index::read(
            clock, slots, words, heads, log, changes, sessions, session, row,
        ),
        Request::Update {
            session,
            row,
            value,
        } => index::update(
            clock, slots, words, heads, log, changes, sessions, session, row, value,
        ),
        Request::Delete { session, row } => index::delete(
            clock, slots, words, heads, log, changes, sessions, session, row,
        ),
        Request::Insert { session, value } => index::insert(
            clock, slots, words, heads, log, changes, sessions, session, value,
        ),
        Request::Commit { session } => index::commit(
            clock, slots, words, heads, log, changes, sessions, session,
        ),
        Request::Tidy { session, value } => index::tidy(
            clock, slots, words, heads, log, changes, sessions, session, value,
        ),
        Request::Abort { session } => index::abort(
            clock, slots, words, heads, log, changes, sessions, session,
        ),
    }
}
