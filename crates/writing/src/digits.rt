// Numbers written in decimal, two digits at a time from a text of the numbers below 100.
ghost use Rattle.std.specs.Prelude.{◌≡◌, [], ◌∷◌, ◌+◌, ◌/◌, ◌<◌, ◌≤◌, length};
ghost use Rattle.text.specs.Show.{decimal};
ghost use Rattle.writing.specs.Wrote.{Wrote, two_digits, four_digits, pairs, field_of};

// The numbers below 100, two digits each.
const PAIRS: &[u8; 200] =
    b"0001020304050607080910111213141516171819202122232425262728293031323334353637383940414243444546474849\
      5051525354555657585960616263646566676869707172737475767778798081828384858687888990919293949596979899";

// Some bytes from `at` on; the place after them.
pub fn put_bytes(out: &mut [u8], at: usize, bytes: &[u8]) -> usize
    requires { at + length bytes.now ≤ length out.old }
    ensures { Wrote out.old at bytes.now out.new result }
{
    let end = at + bytes.len();
    out[at..end].copy_from_slice(bytes);
    end
}

// A byte at `at`; the place after it.
pub fn put_byte(out: &mut [u8], at: usize, b: u8) -> usize
    requires { at < length out.old }
    ensures { Wrote out.old at (b ∷ []) out.new result }
{
    out[at] = b;
    at + 1
}

// The byte of a digit.
fn glyph(x: u32) -> u8
    requires { x < 10 }
    ensures { result ≡ 48 + x }
{
    (48 + x) as u8
}

// The text of the numbers below 100.
fn pair_text() -> &'static [u8]
    ensures { result.now ≡ pairs }
{
    PAIRS
}

// The two digits of a number below 100.
fn put_two(out: &mut [u8], at: usize, x: u32) -> usize
    requires { (x < 100) × (at + 2 ≤ length out.old) }
    ensures { Wrote out.old at (two_digits x) out.new result }
{
    let text = pair_text();
    let i = 2 * x as usize;
    let next = put_byte(out, at, text[i]);
    put_byte(out, next, text[i + 1])
}

// The four digits of a number below 10,000.
fn put_four(out: &mut [u8], at: usize, x: u32) -> usize
    requires { (x < 10000) × (at + 4 ≤ length out.old) }
    ensures { Wrote out.old at (four_digits x) out.new result }
{
    let next = put_two(out, at, x / 100);
    put_two(out, next, x % 100)
}

// A number below 10,000.
pub fn put_small(out: &mut [u8], at: usize, x: u32) -> usize
    requires { (x < 10000) × (at + 4 ≤ length out.old) }
    ensures { Wrote out.old at (decimal x) out.new result }
{
    if x >= 1000 {
        return put_four(out, at, x);
    }
    if x >= 100 {
        let next = put_byte(out, at, glyph(x / 100));
        return put_two(out, next, x % 100);
    }
    if x >= 10 {
        return put_two(out, at, x);
    }
    put_byte(out, at, glyph(x))
}

// A number below 1,000,000.
fn put_middle(out: &mut [u8], at: usize, x: u32) -> usize
    requires { (x < 1000000) × (at + 6 ≤ length out.old) }
    ensures { Wrote out.old at (decimal x) out.new result }
{
    if x < 10000 {
        return put_small(out, at, x);
    }
    let next = put_small(out, at, x / 10000);
    put_four(out, next, x % 10000)
}

// A number.
fn put_number(out: &mut [u8], at: usize, x: u32) -> usize
    requires { at + 10 ≤ length out.old }
    ensures { Wrote out.old at (decimal x) out.new result }
{
    if x < 10000 {
        return put_small(out, at, x);
    }
    let next = put_middle(out, at, x / 10000);
    put_four(out, next, x % 10000)
}

// A space and a number.
pub fn put_field(out: &mut [u8], at: usize, x: u32) -> usize
    requires { at + 11 ≤ length out.old }
    ensures { Wrote out.old at (field_of x) out.new result }
{
    let next = put_byte(out, at, b' ');
    put_number(out, next, x)
}
