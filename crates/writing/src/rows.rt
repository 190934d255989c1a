// The answer of query: its rows are printed from the words of the vector.
ghost use Rattle.std.specs.Prelude.{◌+◌, ◌*◌, ◌<◌, ◌≤◌, length};
ghost use Rattle.bits.specs.Rows.{rows_of, word_rows};
ghost use Rattle.rules.specs.Calls.{listed};
ghost use Rattle.text.specs.Show.{spaced};
ghost use Rattle.writing.specs.Wrote.{Wrote, Answered, field_of};

use crate::{digits, replies};

// A space and a row.
fn put_row(out: &mut [u8], at: usize, x: u32) -> usize
    requires { (x < 10000) × (at + 5 ≤ length out.old) }
    ensures { Wrote out.old at (field_of x) out.new result }
{
    let next = digits::put_byte(out, at, b' ');
    digits::put_small(out, next, x)
}

// The rows of a word whose first row is `base`, ascending, each after a space.
fn put_word(out: &mut [u8], start: usize, word: u64, base: u32) -> usize
    requires { (base + 64 ≤ 10000) × (start + 320 ≤ length out.old) }
    ensures { (Wrote out.old start (spaced (word_rows word base)) out.new result) × (result ≤ start + 320) }
{
    let mut at = start;
    let mut x = word;
    while x != 0 {
        at = put_row(out, at, base + x.trailing_zeros());
        x &= x - 1;
    }
    at
}

// The rows of a vector, ascending, each after a space.
fn put_rows(out: &mut [u8], start: usize, vector: &[u64]) -> usize
    requires { (length vector.now ≤ 32) × (start + 320 * length vector.now ≤ length out.old) }
    ensures { (Wrote out.old start (spaced (rows_of vector.now)) out.new result)
        × (result ≤ start + 320 * length vector.now) }
{
    let mut at = start;
    for (i, word) in vector.iter().enumerate() {
        // By `as u32` the compiler divides a row by more steps: 0.5 % of an evening.
        at = put_word(out, at, *word, bits::narrow(i * 64));
    }
    at
}

// `ok`, the flip count, due, the number of rows and the rows.
pub fn put_queried(out: &mut [u8], flips: u32, due: bool, vector: &[u64]) -> usize
    requires { (length vector.now ≤ 32) × (35 + 320 * length vector.now ≤ length out.old) }
    ensures { Answered out.old (listed flips due (rows_of vector.now)) out.new result
        (35 + 320 * length vector.now) }
{
    let n = vectors::count(vector) as u32;
    let next = replies::put_ok_three(out, flips, u32::from(due), n);
    put_rows(out, next, vector)
}
