// The fields of a line, by their places, and the numbers in them. Assumes nothing.
#![tactic(auto)]

ghost use Rattle.std.specs.Prelude.{◌≡◌, ◌<◌, ◌≤◌, length};
ghost use Rattle.fields.specs.Number.{number};
ghost use Rattle.fields.specs.Places.{end_at, start_by, field_by};

// What was read of a field, and the place after the field.
#[derive(Clone, Copy)]
pub struct Field {
    pub value: u64,
    pub next: usize,
}

// Where the part that starts at `from` ends: at the next `s`, or at the end.
pub fn end_from(line: &[u8], from: usize, s: u8) -> usize
    requires { from ≤ length line.now }
    ensures { result ≡ end_at s line.now from }
{
    for i in from..line.len() {
        if line[i] == s {
            return i;
        }
    }
    line.len()
}

// The number in the field that starts at `from`, if it is one.
fn number_from(line: &[u8], from: usize) -> Option<Field>
    requires { from < length line.now }
    ensures { result ≡ start_by number line.now from }
{
    let first = line[from];
    if !first.is_ascii_digit() {
        return None;
    }
    let mut value = u64::from(first - b'0');
    let mut left: usize = 3;
    for i in from + 1..line.len() {
        let b = line[i];
        if b == b' ' {
            return Some(Field { value, next: i });
        }
        if left == 0 {
            return None;
        }
        if !b.is_ascii_digit() {
            return None;
        }
        value = value * 10 + u64::from(b - b'0');
        left -= 1;
    }
    Some(Field {
        value,
        next: line.len(),
    })
}

// The number in the field after the space at `at`, if it is one; none at the line's end.
pub fn number_at(line: &[u8], at: usize) -> Option<Field>
    requires { at ≤ length line.now }
    ensures { result ≡ field_by number line.now at }
{
    if line.len() <= at + 1 {
        return None;
    }
    number_from(line, at + 1)
}
