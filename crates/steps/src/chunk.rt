// The lines of a chunk of the input, answered.
ghost use Rattle.std.specs.Prelude.{◌≡◌, ◌&&◌, ◌-◌, ◌<◌, ◌≤◌, leb, ltb, length, IfSome};
ghost use Rattle.tables.specs.Cells.{tables};
ghost use Rattle.text.specs.Feed.{whole_line};
ghost use Rattle.steps.specs.Desk.{desk};
ghost use Rattle.steps.specs.Answers.{Replied, spot, Answers};

use tables::Session;

// What stands between two lines: how many bytes are pending of the next one, how many bytes of answers are not yet written,
// and where the chunk goes on. The buffers are fixed, as there is no heap: so their lengths in use go beside them.
#[derive(Clone, Copy)]
pub struct State {
    pub pending: usize,
    pub filled: usize,
    pub next: usize,
}

// Whether the chunk of `n` bytes goes on at `at`, and `room` bytes of which `filled` are taken have room for any answer.
fn goes_on(at: usize, n: usize, filled: usize, room: usize) -> bool
    requires { filled ≤ room }
    ensures { result ≡ ltb at n && leb 10276 (room - filled) }
{
    (at < n) & (10276 <= room - filled)
}

// A line that is whole is answered, if there is one: the first so many bytes pending; how many bytes its answer has.
fn answered(
    clock: &mut [u32],
    slots: &mut [u32],
    words: &mut [u64],
    heads: &mut [u32],
    log: &mut [u32],
    changes: &mut [u32],
    sessions: &mut [Session],
    scratch: &mut [u64],
    column: &mut [u8],
    pending: &[u8],
    out: &mut [u8],
    whole: Option<usize>,
) -> usize
    requires { (4096 ≤ length column.old) × (10276 ≤ length out.old) × IfSome whole (λ n. n ≤ length pending.now) }
    ensures { Replied
        (desk (tables clock.old slots.old words.old heads.old log.old
        changes.old sessions.old) scratch.old) (whole_line whole pending.now) out.old
        (desk (tables clock.new slots.new words.new heads.new log.new
        changes.new sessions.new) scratch.new) out.new result }
{
    let Some(n) = whole else {
        return 0;
    };
    lines::line(
        clock,
        slots,
        words,
        heads,
        log,
        changes,
        sessions,
        scratch,
        column,
        &pending[..n],
        out,
    )
}

// The lines of a chunk are answered from where it goes on, as far as there is room for the answers; what follows its last
// newline is pending.
pub fn answer(
    clock: &mut [u32],
    slots: &mut [u32],
    words: &mut [u64],
    heads: &mut [u32],
    log: &mut [u32],
    changes: &mut [u32],
    sessions: &mut [Session],
    scratch: &mut [u64],
    column: &mut [u8],
    pending: &mut [u8],
    out: &mut [u8],
    bytes: &[u8],
    before: State,
) -> State
    requires { (4096 ≤ length column.old)
        × (before.pending ≤ length pending.old)
        × (before.filled ≤ length out.old) × (before.next ≤ length bytes.now) }
    ensures { Answers bytes.now (spot (desk (tables clock.old slots.old
        words.old heads.old log.old changes.old sessions.old)
        scratch.old) pending.old before.pending out.old before.filled
        before.next) (spot (desk (tables clock.new slots.new words.new heads.new
        log.new changes.new sessions.new) scratch.new) pending.new result.pending
        out.new result.filled result.next) }
{
    let mut len = before.pending;
    let mut filled = before.filled;
    let mut at = before.next;
    'lines: while goes_on(at, bytes.len(), filled, out.len()) {
        let fed = text::feed_line(pending, len, bytes, at);
        filled += answered(
            clock,
            slots,
            words,
            heads,
            log,
            changes,
            sessions,
            scratch,
            column,
            pending,
            &mut out[filled..],
            fed.line,
        );
        len = fed.len;
        at = fed.next;
    }
    State {
        pending: len,
        filled,
        next: at,
    }
}
