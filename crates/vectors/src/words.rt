// Vectors: row r is bit r mod 64, bit 0 the lowest, of word r div 64.
ghost use Rattle.std.specs.Prelude.{◌≡◌, false, ◌+◌, ◌*◌, ◌≤◌, ◌<◌, length};
ghost use Rattle.bits.specs.Bit.{bit};
ghost use Rattle.bits.specs.Words.{bit_at, put_bit, put_at, xor_words, merged_words};
ghost use Rattle.bits.specs.Vec.{vec};
ghost use Rattle.bits.specs.Rows.{count_of};
ghost use Rattle.bits.specs.Tail.{tail_clear, zeros_from};
ghost use Rattle.bits.specs.Vectors.{tails_clear, word_of_all, rest_of, zeros_of_all};

// Whether bit k of the word is set. `bits::has` asks the same of a u32: one function for both would want a trait of shifts with its laws.
#[tactic(auto, unfolding(bits::specs::Bit::bit))]
fn has_bit(w: u64, k: usize) -> bool
    requires { k < 64 }
    ensures { result ≡ bit w k }
{
    (w >> k) % 2 == 1
}

// The word with bit k made `on`.
#[tactic(auto, using(bits::proofs::BitLaws::one_shl), unfolding(bits::specs::Bit::set_bit, bits::specs::Bit::clear_bit))]
fn with_bit(w: u64, k: usize, on: bool) -> u64
    requires { k < 64 }
    ensures { result ≡ put_bit w k on }
{
    let m: u64 = 1 << k;
    if on { w | m } else { (w | m) ^ m }
}

// Whether row `row` is set; a row past the words is not.
#[tactic(auto, unfolding(bits::specs::Words::bit_at))]
pub fn get(ws: &[u64], row: usize) -> bool
    ensures { result ≡ bit_at ws.now row }
{
    let i = row / 64;
    i < ws.len() && has_bit(ws[i], row % 64)
}

// Whether row `row` of one vector is set, with no test of a length: it is asked for each entry of a session's list.
#[tactic(auto, unfolding(bits::specs::Words::bit_at))]
pub fn get_in(ws: &[u64; 32], row: usize) -> bool
    requires { row < 2048 }
    ensures { result ≡ bit_at ws.now row }
{
    has_bit(ws[row / 64], row % 64)
}

// Row `row` of one vector is made `on`.
#[tactic(auto, unfolding(bits::specs::Words::put_at))]
pub fn put_in(ws: &mut [u64; 32], row: usize, on: bool)
    requires { row < 2048 }
    ensures { ws.new ≡ put_at ws.old row on }
{
    let i = row / 64;
    ws[i] = with_bit(ws[i], row % 64, on);
}

// The words of `a` with the rows of `mask` turned over.
pub fn xor_into(dst: &mut [u64], a: &[u64], mask: &[u64])
    requires { (length a.now ≡ length dst.old) × (length mask.now ≡ length dst.old) }
    ensures { dst.new ≡ xor_words a.now mask.now }
{
    for (i, d) in dst.iter_mut().enumerate() {
        *d = a[i] ^ mask[i];
    }
}

// The rows of `a` with those of `mask` turned over are set too.
pub fn merge(dst: &mut [u64], a: &[u64], mask: &[u64])
    requires { (length a.now ≡ length dst.old) × (length mask.now ≡ length dst.old) }
    ensures { dst.new ≡ merged_words dst.old a.now mask.now }
{
    for (i, d) in dst.iter_mut().enumerate() {
        *d |= a[i] ^ mask[i];
    }
}

// The words of `src`. A loop, which becomes `memcpy`: `copy_from_slice` has the archive ask the C library for `memmove` as well.
pub fn copy(dst: &mut [u64], src: &[u64])
    requires { length src.now ≡ length dst.old }
    ensures { dst.new ≡ src.now }
{
    for (i, d) in dst.iter_mut().enumerate() {
        *d = src[i];
    }
}

// No row is set.
pub fn clear(dst: &mut [u64])
    ensures { dst.new ≡ vec (λ r. false) (length dst.old) }
{
    dst.fill(0);
}

// How many rows are set.
pub fn count(ws: &[u64]) -> usize
    requires { length ws.now ≤ 1024 }
    ensures { result ≡ count_of ws.now }
{
    ws.iter().map(|w| w.count_ones() as usize).sum()
}

// Whether all words from `from` on are 0.
fn zero_from(ws: &[u64], from: usize) -> bool
    requires { from ≤ length ws.now }
    ensures { result ≡ zeros_from ws.now from }
{
    ws[from..].iter().fold(0, |all, w| all | *w) == 0
}

// Whether no row at or above n is set.
pub fn tail_clear(ws: &[u64], n: usize) -> bool
    ensures { result ≡ tail_clear ws.now n }
{
    let i = n / 64;
    if ws.len() <= i {
        return true;
    }
    ((ws[i] >> (n % 64)) == 0) & zero_from(ws, i + 1)
}

// Word j of each of the first n vectors, as one word.
fn word_of_all(words: &[u64], n: usize, j: usize) -> u64
    requires { (j < 32) × (32 * n ≤ length words.now) }
    ensures { result ≡ word_of_all words.now n j }
{
    let mut all = 0;
    for i in 0..n {
        all |= words[32 * i + j];
    }
    all
}

// Words `from` to 31 of vector i, as one word.
fn rest_of(words: &[u64], from: usize, i: usize) -> u64
    requires { (from ≤ 32) × (32 * i + 32 ≤ length words.now) }
    ensures { result ≡ rest_of words.now from i }
{
    let mut all = 0;
    for j in from..32 {
        all |= words[32 * i + j];
    }
    all
}

// Whether words `from` to 31 of each of the first n vectors are 0.
fn zero_in_all(words: &[u64], n: usize, from: usize) -> bool
    requires { (from ≤ 32) × (32 * n ≤ length words.now) }
    ensures { result ≡ zeros_of_all words.now n from }
{
    let mut all = 0;
    for i in 0..n {
        all |= rest_of(words, from, i);
    }
    all == 0
}

// Whether no row at or above `row` is set in any of the first n vectors of 32 words.
pub fn tails_clear(words: &[u64], n: usize, row: usize) -> bool
    requires { 32 * n ≤ length words.now }
    ensures { result ≡ tails_clear words.now n row }
{
    let j = row / 64;
    if 32 <= j {
        return true;
    }
    if (word_of_all(words, n, j) >> (row % 64)) != 0 {
        return false;
    }
    zero_in_all(words, n, j + 1)
}
