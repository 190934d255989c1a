// The rows of a vector as a list of numbers.
ghost use Rattle.std.specs.Prelude.{◌≡◌, ◌+◌, ◌≤◌, length};
ghost use Rattle.std.proofs.lemmas.List.Edits.{sets};
ghost use Rattle.bits.specs.Rows.{count_of, rows_of, word_rows};
ghost use Rattle.bits.specs.Tab.{over};

// The rows of a word whose first row is `base`, ascending, in the cells from `start` on; the place after them.
fn list_word(list: &mut [u16], start: usize, word: u64, base: u32) -> usize
    requires { (base + 64 ≤ 65536) × (start + length (word_rows word base) ≤ length list.old) }
    ensures { (list.new ≡ sets list.old start (word_rows word base))
        × (result ≡ start + length (word_rows word base)) }
{
    let mut at = start;
    let mut x = word;
    while x != 0 {
        list[at] = (base + x.trailing_zeros()) as u16;
        at += 1;
        x &= x - 1;
    }
    at
}

// The rows of a vector, ascending, in the list's first cells; the others stay.
pub fn list_rows(list: &mut [u16], ws: &[u64])
    requires { (length ws.now ≤ 1024) × (count_of ws.now ≤ length list.old) }
    ensures { list.new ≡ over (rows_of ws.now) list.old }
{
    let mut at = 0;
    for (i, w) in ws.iter().enumerate() {
        at = list_word(list, at, *w, (i * 64) as u32);
    }
}
