// Commit: its refusals, and what it writes. Where one of the six tables is written while the others are read, they are passed apart.
ghost use Rattle.std.specs.Prelude.{◌≡◌, []};
ghost use Rattle.rules.specs.Refusals.{first_of};
ghost use Rattle.tables.specs.Cells.{tables};
ghost use Rattle.outcomes.specs.Calls.{commit_of};
ghost use Rattle.outcomes.specs.Seats.{freeing, Serves};
ghost use Rattle.outcomes.specs.Enter.{why_of};
ghost use Rattle.outcomes.specs.Opened.{Usable, Settles};
ghost use Rattle.committing.specs.Commit.{CommitAsked, commit_tests};

use crate::writes;
use lent::Seat;
use outcomes::Answer;
use tables::{NumberTables, Refusal, Session};

// The refusals 11, 12, 15, 16 and 17.
#[tactic(auto, unfolding(crate::specs::Commit::commit_tests, tables::specs::Clock::clock_in))]
fn ready(clock: &[u32], log: &[u32], changes: &[u32], s: Session) -> Result<(), Refusal>
    requires { CommitAsked clock.now log.now changes.now s }
    ensures { why_of result ≡ first_of (commit_tests clock.now log.now changes.now s) }
{
    let c = tables::clock_of(clock);
    if s.count == 0 {
        return Err(Refusal::ListEmpty);
    }
    if conflict::clash(log, changes, s, c.stamp) {
        return Err(Refusal::Conflict);
    }
    if tables::MAX_ROWS < c.rows.0 + outcomes::inserts(s) {
        return Err(Refusal::RowsFull);
    }
    if tables::MAX_RECORDS <= c.stamp.0 {
        return Err(Refusal::RecordsFull);
    }
    if tables::MAX_CHANGES < tables::changes_used(clock) + s.count {
        return Err(Refusal::ChangesFull);
    }
    Ok(())
}

// Commit of an open session on undamaged tables.
fn commit_now(
    clock: &mut [u32],
    slots: &[u32],
    words: &[u64],
    heads: &[u32],
    log: &mut [u32],
    changes: &mut [u32],
    s: Session,
    n: u64,
) -> Result<Answer, Refusal>
    requires { Usable clock.old slots.now words.now heads.now log.old changes.old s }
    ensures { Settles
        (tables clock.old slots.now words.now heads.now log.old
        changes.old)
        (tables clock.new slots.now words.now heads.now log.new
        changes.new) s n (freeing result n) result (λ t. commit_of t n) }
{
    ready(clock, log, changes, s)?;
    Ok(writes::commit_work(clock, slots, words, heads, log, changes, s))
}

// Commit: the stamp and the row count after it; the session is to be freed.
pub fn commit_in(
    clock: &mut [u32],
    slots: &[u32],
    words: &[u64],
    heads: &[u32],
    log: &mut [u32],
    changes: &mut [u32],
    seat: Seat,
    n: u64,
) -> Result<Answer, Refusal>
    ensures { Serves
        (tables clock.old slots.now words.now heads.now log.old
        changes.old)
        (tables clock.new slots.now words.now heads.now log.new
        changes.new) [] seat n (freeing result n) result (λ t. commit_of t n) }
{
    let t = NumberTables {
        clock,
        slots,
        words,
        heads,
        log,
        changes,
    };
    outcomes::opened(t, seat, n)?;
    commit_now(clock, slots, words, heads, log, changes, seat.session, n)
}
