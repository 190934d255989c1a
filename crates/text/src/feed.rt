// Lines gathered from chunks.
ghost use Rattle.std.specs.Prelude.{◌≡◌, ◌<◌, ◌≤◌, length};
ghost use Rattle.fields.specs.Split.{newline};
ghost use Rattle.fields.specs.Places.{end_at};
ghost use Rattle.text.specs.Feed.{has_byte, Gathered, Feeds};

// Whether one of the bytes is a newline.
fn has_newline(bytes: &[u8]) -> bool
    ensures { result ≡ has_byte newline bytes.now }
{
    let mut found = false;
    for b in bytes {
        found = found | (*b == b'\n');
    }
    found
}

// A place from which the line ends where it does from `from`: blocks of 64 bytes without a newline are passed over: the
// step is a block, no count.
fn blocks_from(bytes: &[u8], from: usize) -> usize
    requires { from ≤ length bytes.now }
    ensures { (result ≤ length bytes.now)
        × (end_at newline bytes.now from ≡ end_at newline bytes.now result) }
{
    let n = bytes.len();
    let mut i = from;
    while 64 <= n - i {
        let e = i + 64;
        if has_newline(&bytes[i..e]) {
            return i;
        }
        i = e;
    }
    i
}

// Where the line ends that goes on at `from`: at the next newline, or at the end. A short line is looked through byte by byte.
pub fn newline_from(bytes: &[u8], from: usize) -> usize
    requires { from ≤ length bytes.now }
    ensures { result ≡ end_at newline bytes.now from }
{
    let stop = bytes.len().min(from + 64);
    for i in from..stop {
        if bytes[i] == b'\n' {
            return i;
        }
    }
    let j = blocks_from(bytes, stop);
    fields::end_from(bytes, j, b'\n')
}

// The bytes of `part` after the `len` bytes pending, as far as there is room; how many are then pending. The buffer is lent, and how
// much of it is filled goes beside it: there is no heap, and a slice has no length of its own within what is lent.
pub fn gather(pending: &mut [u8], len: usize, part: &[u8]) -> usize
    requires { len ≤ length pending.old }
    ensures { Gathered pending.old len part.now pending.new result }
{
    let end = pending.len().min(len + part.len());
    pending[len..end].copy_from_slice(&part[..end - len]);
    end
}

// A line that is whole, if one is: the first so many bytes pending; how many are pending of the next one; where the chunk goes on.
#[derive(Clone, Copy)]
pub struct Fed {
    pub line: Option<usize>,
    pub len: usize,
    pub next: usize,
}

// The bytes of a chunk from `at` up to its next newline, or to its end, after the `len` bytes pending.
pub fn feed_line(pending: &mut [u8], len: usize, bytes: &[u8], at: usize) -> Fed
    requires { (len ≤ length pending.old) × (at < length bytes.now) }
    ensures { Feeds pending.old len bytes.now at pending.new result }
{
    let end = newline_from(bytes, at);
    let n = gather(pending, len, &bytes[at..end]);
    if end < bytes.len() {
        return Fed {
            line: Some(n),
            len: 0,
            next: end + 1,
        };
    }
    Fed {
        line: None,
        len: n,
        next: end,
    }
}
