// A column of bytes as vectors, one for each value.
ghost use Rattle.std.specs.Prelude.{◌≡◌, ◌*◌, ◌≤◌, ◌<◌, length};
ghost use Rattle.bits.specs.Column.{column_bit, in_word, with_rows, Gathered, Gatherable};

use crate::words;

// The rows `from` to `to` of word i of a column, each set in the word of its byte.
fn gather_rows(own: &mut [u64], col: &[u8], i: usize, from: usize, to: usize)
    requires { Gatherable own.old col.now i from to }
    ensures { Gathered col.now i to own.new }
{
    for k in from..to {
        own[usize::from(col[i * 64 + k])] |= 1 << k;
    }
}

// Word i of the rows of a column that hold v, in word v, for each v below 32.
fn gather(own: &mut [u64], col: &[u8], i: usize)
    requires { (256 ≤ length own.old) × (i < 32) × (i * 64 ≤ length col.now) }
    ensures { Gathered col.now i 64 own.new }
{
    words::clear(&mut own[..32]);
    gather_rows(own, col, i, 0, (col.len() - i * 64).min(64));
}

// Each row of word i of a column that holds a value below 32 is set in the value's vector.
fn set_word(words: &mut [u64], own: &mut [u64], col: &[u8], i: usize)
    requires { (1024 ≤ length words.old) × (256 ≤ length own.old) × (i < 32) × (i * 64 ≤ length col.now) }
    ensures { words.new ≡ with_rows (in_word col.now i) words.old }
{
    gather(own, col, i);
    for v in 0..32 {
        words[32 * v + i] |= own[v];
    }
}

// Each row of a column that holds a value below 32 is set in the value's vector: vector b is the 32 words from 32 * b on.
pub fn set_columns(words: &mut [u64], col: &[u8])
    requires { (1024 ≤ length words.old) × (length col.now ≤ 2048) }
    ensures { words.new ≡ with_rows (column_bit col.now) words.old }
{
    let mut own = [0u64; 256];
    for i in 0..col.len().div_ceil(64) {
        set_word(words, &mut own, col, i);
    }
}
