// The vector of a slot: its words, a row of it, and a copy of it with rows turned over.
ghost use Rattle.std.specs.Prelude.{◌≡◌, ◌<◌, ◌≤◌, length};
ghost use Rattle.bits.specs.Bit.{xorb};
ghost use Rattle.bits.specs.Words.{bit_at};
ghost use Rattle.tables.specs.Cells.{slot_words};
ghost use Rattle.history.specs.Query.{front_filled};

use tables::Row;

// The words of a slot.
pub fn slot_words(words: &[u64], slot: usize) -> &[u64]
    requires { (slot < 96) × (3072 ≤ length words.now) }
    ensures { result.now ≡ slot_words words.now slot }
{
    let a = 32 * slot;
    &words[a..a + 32]
}

// Whether the vector of a slot has the row.
pub fn slot_has(words: &[u64], slot: usize, row: Row) -> bool
    requires { (slot < 96) × (3072 ≤ length words.now) }
    ensures { result ≡ bit_at (slot_words words.now slot) row.0 }
{
    vectors::get(slot_words(words, slot), row.0 as usize)
}

// The scratch's first 32 words become the words of a slot with the rows of the mask turned over.
pub fn turn_over(scratch: &mut [u64], words: &[u64], slot: usize, mask: &[u64])
    requires { (slot < 96) × (3072 ≤ length words.now) × (32 ≤ length scratch.old) × (length mask.now ≡ 32) }
    ensures { scratch.new ≡ front_filled
        (λ r. xorb (bit_at (slot_words words.now slot) r) (bit_at mask.now r)) scratch.old }
{
    vectors::xor_into(&mut scratch[..32], slot_words(words, slot), mask);
}
