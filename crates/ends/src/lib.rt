// Standard input and standard output. A call that a signal interrupts, or that would have to wait on an end which does not wait, is made
// again; one that fails otherwise is told on standard error. Assumes nothing. Each read and each write is one call of the system: std's
// handles keep no bytes back, so that what a write has answered is what the system took.
#![tactic(auto)]

mod watch;

ghost use Rattle.std.specs.Prelude.{is_ok};
ghost use Rattle.std.specs.Result.{result_unwrap_or};
ghost use Rattle.ends.specs.Ends.{Put, Taken, Handed, Got};

use std::io::{Eprint, ErrorKind, Print, Read, Stderr, Stdin, Stdout};
use std::{io, thread};
pub use watch::Watch;

// So many turns a loop has that has to end: more than any run makes.
pub const TURNS: u64 = 9223372036854775807;

// A read or a write has failed, and standard error was told what and why.
#[derive(Clone, Copy, Debug, PartialEq, Eq)]
pub struct Stopped;

// The watches on the bytes handed to `write`, and on those that the system took of them.
#[derive(Clone, Copy)]
pub struct Told {
    pub handed: Watch,
    pub taken: Watch,
}

// Whether the call that has failed so may be made again; others run first.
fn again(why: &io::Error) -> bool {
    match why.kind() {
        ErrorKind::Interrupted | ErrorKind::WouldBlock => {
            thread::yield_now();
            true
        }
        _ => false,
    }
}

// Tells on standard error, by one line, what could not be done and why. Where that cannot be told either, nobody is left to tell.
fn tell(stderr: Stderr, what: &str, why: io::Error) -> Stopped {
    let _ = eprintln!(stderr; "steps: stopped, for {what}: {why}");
    Stopped
}

// One write; the watch sees the bytes that the system took.
fn put(stdout: Stdout, bytes: &[u8], watch: &mut Watch) -> io::Result<usize>
    ensures { Put bytes.now watch.old (result_unwrap_or result 0) watch.new }
{
    let n = stdout.write_some(bytes)?;
    watch.pass(&bytes[..n]);
    Ok(n)
}

// Writes, one after another, until the system has taken all bytes, or one fails: also one that takes none.
fn put_all(stdout: Stdout, bytes: &[u8], watch: &mut Watch) -> io::Result<()>
    ensures { Taken bytes.now watch.old watch.new (is_ok result) }
{
    let mut rest = bytes;
    for _ in 0..TURNS {
        if rest.is_empty() {
            return Ok(());
        }
        match put(stdout, rest, watch) {
            Ok(0) => break,
            Ok(n) => rest = &rest[n..],
            Err(why) => {
                if !again(&why) {
                    return Err(why);
                }
            }
        }
    }
    Err(io::Error::from(ErrorKind::WriteZero))
}

// The bytes of answers are handed to the system.
pub fn write(stdout: Stdout, stderr: Stderr, bytes: &[u8], told: &mut Told) -> Result<(), Stopped>
    ensures { Handed bytes.now told.old told.new (is_ok result) }
{
    told.handed.pass(bytes);
    put_all(stdout, bytes, &mut told.taken).map_err(|why| tell(
        stderr,
        "an answer could not be written",
        why,
    ))
}

// A read, made again until one gives bytes or the end of the input, or fails: how many bytes it gave, 0 at the end of the input. The watch
// sees them.
pub fn read(
    mut stdin: Stdin,
    stderr: Stderr,
    input: &mut [u8],
    watch: &mut Watch,
) -> Result<usize, Stopped>
    ensures { Got input.new watch.old (result_unwrap_or result 0) watch.new }
{
    let mut last = io::Error::from(ErrorKind::Interrupted);
    for _ in 0..TURNS {
        match stdin.read(input) {
            Ok(n) => {
                watch.pass(&input[..n]);
                return Ok(n);
            }
            Err(why) => {
                last = why;
                if !again(&why) {
                    break;
                }
            }
        }
    }
    Err(tell(stderr, "the input could not be read", last))
}
