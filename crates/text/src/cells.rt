// The values of a column.
ghost use Rattle.std.specs.Prelude.{◌≡◌, ◌+◌, ◌*◌, ◌<◌, ◌≤◌, true, length, IfSome};
ghost use Rattle.text.specs.Bytes.{bytes, same};
ghost use Rattle.fields.specs.Split.{space};
ghost use Rattle.text.specs.Parse.{small};
ghost use Rattle.fields.specs.Places.{part_at, field_by};
ghost use Rattle.text.specs.Cells.{byte_of, Stored, Near, Ran};
ghost use Rattle.text.specs.Short.{short_known, short_value, turned_bytes, Turned, Short};

use fields::Field;

// What a number in a column is at most.
const LARGEST_VALUE: u64 = 254;

// The number up to 254 in the field after the space at `at`, if it is one.
pub fn small_at(line: &[u8], at: usize) -> Option<Field>
    requires { at ≤ length line.now }
    ensures { result ≡ field_by small line.now at }
{
    let got = fields::number_at(line, at)?;
    if LARGEST_VALUE < got.value {
        return None;
    }
    Some(got)
}

// Whether the field after the space at `at` is `-`.
fn dash_at(line: &[u8], at: usize) -> bool
    requires { at < length line.now }
    ensures { result ≡ same (part_at space line.now (at + 1)) (bytes "-") }
{
    if line.len() <= at + 1 {
        return false;
    }
    if line[at + 1] != b'-' {
        return false;
    }
    if line.len() <= at + 2 {
        return true;
    }
    if line[at + 2] == b' ' {
        return true;
    }
    false
}

// A cell after the space at `at`, of any length, if it is one.
fn long_cell(line: &[u8], at: usize) -> Option<Field>
    requires { at < length line.now }
    ensures { result ≡ field_by byte_of line.now at }
{
    if dash_at(line, at) {
        return Some(Field {
            value: 255,
            next: at + 2,
        });
    }
    small_at(line, at)
}

// What two bytes say where both are digits: below 100 exactly where they are, if the second is one.
fn two_value(a: u8, b: u8) -> u32
    ensures { result ≤ 99 → result + 528 ≡ a * 10 + b }
{
    (u32::from(a) * 10 + u32::from(b)).wrapping_sub(528)
}

// A cell of one digit or two between the space at `at` and a next one; none where none is told at once.
fn near_cell(line: &[u8], at: usize) -> Option<Field>
    requires { at + 3 < length line.now }
    ensures { IfSome result (Near line.now at) }
{
    let a = line[at + 1];
    let b = line[at + 2];
    if b.is_ascii_digit() {
        if line[at + 3] != b' ' {
            return None;
        }
        let x = two_value(a, b);
        if 99 < x {
            return None;
        }
        return Some(Field {
            value: u64::from(x),
            next: at + 3,
        });
    }
    if b != b' ' {
        return None;
    }
    if a.is_ascii_digit() {
        return Some(Field {
            value: u64::from(a - b'0'),
            next: at + 2,
        });
    }
    None
}

// A place in a line, and how many cells stand before it.
#[derive(Clone, Copy)]
pub struct Run {
    pub at: usize,
    pub n: usize,
}

// Such cells after the space at `start`, into `column` after its first k, up to one that is none: a step is a cell, of two bytes or three.
fn run_into(line: &[u8], start: usize, column: &mut [u8], k: usize) -> Run
    requires { (start < length line.now) × (length line.now + 2 * k ≤ start + 2 * length column.old) }
    ensures { Ran line.now start k column.old column.new result }
{
    let mut at = start;
    let mut n = k;
    while at + 3 < line.len() {
        let Some(cell) = near_cell(line, at) else {
            return Run { at, n };
        };
        column[n] = cell.value as u8;
        n += 1;
        at = cell.next;
    }
    Run { at, n }
}

// The cells after the space at `start`, into `column`, and how many they are, if all are: each takes two bytes of the line at least,
// so that a step is no count.
fn cells_into(line: &[u8], start: usize, column: &mut [u8]) -> Option<usize>
    requires { length line.now ≤ start + 2 * length column.old }
    ensures { Stored line.now start column.old column.new result }
{
    let mut at = start;
    let mut n: usize = 0;
    while at < line.len() {
        let run = run_into(line, at, column, n);
        let cell = long_cell(line, run.at)?;
        column[run.n] = cell.value as u8;
        n = run.n + 1;
        at = cell.next;
    }
    Some(n)
}

// Whether a byte is a cell by itself: a digit, or `-`.
fn short_known(b: u8) -> bool
    ensures { result ≡ short_known b }
{
    b.is_ascii_digit() | (b == b'-')
}

// The cell of such a byte.
fn short_value(b: u8) -> u8
    requires { short_known b ≡ true }
    ensures { result ≡ short_value b }
{
    if b == b'-' { 255 } else { b - b'0' }
}

// Whether a cell of one byte follows a space, and a space a cell.
fn turned(a: u8, b: u8) -> bool
    ensures { result ≡ turned_bytes a b }
{
    if a == b' ' { short_known(b) } else { b == b' ' }
}

// Whether each byte from `from` on, n of them, is followed so.
fn all_turned(line: &[u8], from: usize, n: usize) -> bool
    requires { from + n < length line.now }
    ensures { result ≡ true → Turned line.now from (from + n) }
{
    let mut ok = true;
    for j in from..from + n {
        ok = ok & turned(line[j], line[j + 1]);
    }
    ok
}

// Whether the cells after the space at `start` have one byte each; not asked where values have two digits.
fn all_short(line: &[u8], start: usize, c: u64) -> bool
    ensures { result ≡ true → Short line.now start }
{
    if 10 < c {
        return false;
    }
    if line.len() <= start {
        return false;
    }
    let n = line.len() - start;
    if n % 2 != 0 {
        return false;
    }
    if start == 0 {
        return false;
    }
    let before = start - 1;
    if line[before] == b' ' {
        return false;
    }
    all_turned(line, before, n)
}

// Such cells, into `column`, and how many they are.
fn short_into(line: &[u8], start: usize, column: &mut [u8]) -> Option<usize>
    requires { (length line.now ≤ start + 2 * length column.old) × Short line.now start }
    ensures { Stored line.now start column.old column.new result }
{
    let m = (line.len() - start) / 2;
    for k in 0..m {
        column[k] = short_value(line[start + 2 * k + 1]);
    }
    Some(m)
}

// The cells after the space at `start`, into `column`, of a column whose C is c, and how many they are, if all are.
pub fn column_into(line: &[u8], start: usize, column: &mut [u8], c: u64) -> Option<usize>
    requires { length line.now ≤ start + 2 * length column.old }
    ensures { Stored line.now start column.old column.new result }
{
    if all_short(line, start, c) {
        return short_into(line, start, column);
    }
    cells_into(line, start, column)
}
