// The step program: lines from standard input, an answer to each on standard output. Assumes nothing.
#![tactic(auto)]

mod chunk;

ghost use Rattle.std.specs.Prelude.{◌≡◌, true, ◌<◌, ◌≤◌, is_ok, length, replicate};
ghost use Rattle.tables.specs.Cells.{tables};
ghost use Rattle.tables.specs.Sessions.{freed};
ghost use Rattle.ends.specs.Watch as watching;
ghost use Rattle.steps.specs.Desk.{desk};
ghost use Rattle.steps.specs.Program.{Through, Read, Ends, Blank, Program};

use chunk::State;
use ends::{Stopped, Told, Watch};
use std::io::{Stderr, Stdin, Stdout};
use tables::Session;

// What stands between two reads: how many bytes are pending of the next line, and the watches on the bytes read and on those written.
#[derive(Clone, Copy)]
struct Stand {
    pending: usize,
    heard: Watch,
    told: Told,
}

// Before the first line.
fn started(heard_at: usize, told_at: usize) -> Stand
    ensures { (result.pending ≡ 0)
        × (result.heard ≡ watching.fresh heard_at) × (result.told.handed ≡ watching.fresh told_at)
        × (result.told.taken ≡ watching.fresh told_at) }
{
    Stand {
        pending: 0,
        heard: Watch::fresh(heard_at),
        told: Told {
            handed: Watch::fresh(told_at),
            taken: Watch::fresh(told_at),
        },
    }
}

// The lines of a chunk are answered, and the answers written, piece by piece as the buffer has room; after a write that failed, no line
// more.
fn whole(
    stdout: Stdout,
    stderr: Stderr,
    clock: &mut [u32],
    slots: &mut [u32],
    words: &mut [u64],
    heads: &mut [u32],
    log: &mut [u32],
    changes: &mut [u32],
    sessions: &mut [Session],
    scratch: &mut [u64],
    column: &mut [u8],
    pending: &mut [u8],
    out: &mut [u8],
    bytes: &[u8],
    stand: &mut Stand,
) -> Result<(), Stopped>
    requires { (4096 ≤ length column.old) × (10276 ≤ length out.old)
        × (stand.old.pending ≤ length pending.old) }
    ensures through { Through bytes.now
        (desk (tables clock.old slots.old words.old heads.old log.old
        changes.old sessions.old) scratch.old) pending.old stand.old.pending stand.old.told
        (desk (tables clock.new slots.new words.new heads.new log.new
        changes.new sessions.new) scratch.new) pending.new stand.new.pending stand.new.told
        (is_ok result) }
    ensures heard_value { stand.new.heard ≡ stand.old.heard }
{
    let mut next: usize = 0;
    while next < bytes.len() {
        let before = State {
            pending: stand.pending,
            filled: 0,
            next,
        };
        let after = chunk::answer(
            clock, slots, words, heads, log, changes, sessions, scratch, column, pending, out,
            bytes, before,
        );
        stand.pending = after.pending;
        next = after.next;
        ends::write(stdout, stderr, &out[..after.filled], &mut stand.told)?;
    }
    Ok(())
}

// Reads and answers until the input ends, or something fails. After 9,223,372,036,854,775,807 reads it has failed too.
fn run(
    stdin: Stdin,
    stdout: Stdout,
    stderr: Stderr,
    clock: &mut [u32],
    slots: &mut [u32],
    words: &mut [u64],
    heads: &mut [u32],
    log: &mut [u32],
    changes: &mut [u32],
    sessions: &mut [Session],
    scratch: &mut [u64],
    column: &mut [u8],
    pending: &mut [u8],
    out: &mut [u8],
    input: &mut [u8],
    stand: &mut Stand,
) -> Result<(), Stopped>
    requires { (4096 ≤ length column.old) × (10276 ≤ length out.old)
        × (stand.old.pending ≤ length pending.old) }
    ensures { Read
        (desk (tables clock.old slots.old words.old heads.old log.old
        changes.old sessions.old) scratch.old) pending.old stand.old.pending
        stand.old.heard stand.old.told
        (desk (tables clock.new slots.new words.new heads.new log.new
        changes.new sessions.new) scratch.new)
        pending.new stand.new.pending stand.new.heard stand.new.told (is_ok result) }
{
    for _ in 0..ends::TURNS {
        let n = ends::read(stdin, stderr, input, &mut stand.heard)?;
        if n == 0 {
            return Ok(());
        }
        whole(
            stdout,
            stderr,
            clock,
            slots,
            words,
            heads,
            log,
            changes,
            sessions,
            scratch,
            column,
            pending,
            out,
            &input[..n],
            stand,
        )?;
    }
    Err(Stopped)
}

// At the end of the input a last line without a newline is answered; where something has failed, nothing more is done.
fn finish(
    stdout: Stdout,
    stderr: Stderr,
    clock: &mut [u32],
    slots: &mut [u32],
    words: &mut [u64],
    heads: &mut [u32],
    log: &mut [u32],
    changes: &mut [u32],
    sessions: &mut [Session],
    scratch: &mut [u64],
    column: &mut [u8],
    pending: &mut [u8],
    out: &mut [u8],
    stand: &mut Stand,
    gone: Result<(), Stopped>,
) -> Result<(), Stopped>
    requires { (4096 ≤ length column.old) × (10276 ≤ length out.old)
        × (stand.old.pending ≤ length pending.old) }
    ensures ends { Ends
        (desk (tables clock.old slots.old words.old heads.old log.old
        changes.old sessions.old) scratch.old) pending.old stand.old.pending
        stand.old.told (is_ok gone)
        (desk (tables clock.new slots.new words.new heads.new log.new
        changes.new sessions.new) scratch.new) stand.new.told (is_ok result) }
    ensures heard_value { stand.new.heard ≡ stand.old.heard }
{
    if gone.is_err() || stand.pending == 0 {
        return gone;
    }
    whole(
        stdout, stderr, clock, slots, words, heads, log, changes, sessions, scratch, column,
        pending, out, b"\n", stand,
    )
}

// The program on lent tables, all zeros, and buffers, with a watch on a byte of its input and one on a byte of its output: what stands at
// its end, and whether nothing failed.
fn program(
    stdin: Stdin,
    stdout: Stdout,
    stderr: Stderr,
    clock: &mut [u32],
    slots: &mut [u32],
    words: &mut [u64],
    heads: &mut [u32],
    log: &mut [u32],
    changes: &mut [u32],
    sessions: &mut [Session],
    scratch: &mut [u64],
    column: &mut [u8],
    pending: &mut [u8],
    out: &mut [u8],
    input: &mut [u8],
    heard_at: usize,
    told_at: usize,
) -> (Stand, Result<(), Stopped>)
    requires blank { Blank clock.old slots.old words.old heads.old log.old changes.old scratch.old }
    requires free { sessions.old ≡ replicate 16 freed }
    requires in_bounds { (4096 ≤ length column.old) × (10276 ≤ length out.old) × (8192 < length pending.old) }
    ensures { Program heard_at told_at
        (desk (tables clock.new slots.new words.new heads.new log.new
        changes.new sessions.new) scratch.new) result.0.heard result.0.told (is_ok result.1) }
{
    let mut stand = started(heard_at, told_at);
    let gone = run(
        stdin, stdout, stderr, clock, slots, words, heads, log, changes, sessions, scratch, column,
        pending, out, input, &mut stand,
    );
    let done = finish(
        stdout, stderr, clock, slots, words, heads, log, changes, sessions, scratch, column,
        pending, out, &mut stand, gone,
    );
    (stand, done)
}

// 65,536 zeros: what a read fills, and what answers are gathered in before they are written.
fn large_buffer() -> [u8; 65536]
    ensures { 65536 ≡ length result }
{
    [0; 65536]
}

// The program starts from zeros and free sessions. Which bytes are watched is all the same, and what failed was told.
fn main(rt: HostRuntime) {
    let mut clock = [0u32; 6];
    let mut slots = [0u32; 288];
    let mut words = [0u64; 3072];
    let mut heads = [0u32; 32];
    let mut log = [0u32; 2048];
    let mut changes = [0u32; 4096];
    let mut sessions = [tables::free_session(); 16];
    let mut scratch = [0u64; 32];
    let mut column = [0u8; 4096];
    let mut pending = [0u8; 8193];
    let mut out = large_buffer();
    let mut input = large_buffer();
    let _ = program(
        rt.stdin(),
        rt.stdout(),
        rt.stderr(),
        &mut clock,
        &mut slots,
        &mut words,
        &mut heads,
        &mut log,
        &mut changes,
        &mut sessions,
        &mut scratch,
        &mut column,
        &mut pending,
        &mut out,
        &mut input,
        0,
        0,
    );
}
