// An answer written as bytes.
ghost use Rattle.std.specs.Prelude.{[], ◌∷◌, ◌<◌, ◌≤◌, length};
ghost use Rattle.std.proofs.Math.Option.{none};
ghost use Rattle.rules.specs.Calls.{refused, ok, value};
ghost use Rattle.fields.specs.Split.{newline};
ghost use Rattle.writing.specs.Wrote.{Wrote, Answered};

use crate::digits;

// `no` and a number.
pub fn put_no(out: &mut [u8], n: u32) -> usize
    requires { 13 ≤ length out.old }
    ensures { Answered out.old (refused n) out.new result 13 }
{
    let next = digits::put_bytes(out, 0, b"no");
    digits::put_field(out, next, n)
}

// `ok`.
fn put_ok(out: &mut [u8]) -> usize
    requires { 2 ≤ length out.old }
    ensures { Answered out.old (ok []) out.new result 2 }
{
    digits::put_bytes(out, 0, b"ok")
}

// `ok` and a number.
pub fn put_ok_one(out: &mut [u8], x: u32) -> usize
    requires { 13 ≤ length out.old }
    ensures { Answered out.old (ok (x ∷ [])) out.new result 13 }
{
    let next = put_ok(out);
    digits::put_field(out, next, x)
}

// `ok` and two numbers.
pub fn put_ok_two(out: &mut [u8], x: u32, y: u32) -> usize
    requires { 24 ≤ length out.old }
    ensures { Answered out.old (ok (x ∷ y ∷ [])) out.new result 24 }
{
    let next = put_ok_one(out, x);
    digits::put_field(out, next, y)
}

// `ok` and three numbers.
pub fn put_ok_three(out: &mut [u8], x: u32, y: u32, z: u32) -> usize
    requires { 35 ≤ length out.old }
    ensures { Answered out.old (ok (x ∷ y ∷ z ∷ [])) out.new result 35 }
{
    let next = put_ok_two(out, x, y);
    digits::put_field(out, next, z)
}

// `ok -`.
pub fn put_absent(out: &mut [u8]) -> usize
    requires { 4 ≤ length out.old }
    ensures { Answered out.old (value none) out.new result 4 }
{
    digits::put_bytes(out, 0, b"ok -")
}

// A newline after an answer of `n` bytes.
pub fn put_end(out: &mut [u8], n: usize) -> usize
    requires { n < length out.old }
    ensures { Wrote out.old n (newline ∷ []) out.new result }
{
    digits::put_byte(out, n, b'\n')
}
