// What a line asks for, and what its fields after the word say.
ghost use Rattle.std.specs.Prelude.{◌≡◌, ◌*◌, ◌≤◌, length};
ghost use Rattle.fields.specs.Split.{space};
ghost use Rattle.fields.specs.Number.{number};
ghost use Rattle.fields.specs.Places.{after};
ghost use Rattle.text.specs.Parse.{each};
ghost use Rattle.text.specs.Asked.{exactly, Columned};

use crate::cells;

// What a line asks for. A column's are C and the count of its rows.
#[derive(Clone, Copy)]
pub enum Request {
    Column { values: u64, rows: usize },
    Begin { session: u64 },
    Query { session: u64, value: u64 },
    Read { session: u64, row: u64 },
    Update { session: u64, row: u64, value: u64 },
    Delete { session: u64, row: u64 },
    Insert { session: u64, value: u64 },
    Commit { session: u64 },
    Tidy { session: u64, value: u64 },
    Abort { session: u64 },
}

// The numbers in the fields after the space at `at`, if these are N numbers and no more. Inlined: LLVM copies the step program's sessions
// once more for each line that it makes this call for.
#[inline(always)]
pub fn numbers<const N: usize>(line: &[u8], at: usize) -> Option<[u64; N]>
    requires { at ≤ length line.now }
    ensures { result ≡ exactly N (each number (after space line.now at)) }
{
    let mut found = [0; N];
    let mut next = at;
    for i in 0..N {
        let field = fields::number_at(line, next)?;
        found[i] = field.value;
        next = field.next;
    }
    if next < line.len() {
        return None;
    }
    Some(found)
}

// The request of a column.
pub fn column_request(line: &[u8], at: usize, column: &mut [u8]) -> Option<Request>
    requires { (at ≤ length line.now) × (length line.now ≤ 2 * length column.old) }
    ensures { Columned line.now at column.old column.new result }
{
    let first = cells::small_at(line, at)?;
    let rows = cells::column_into(line, first.next, column, first.value)?;
    Some(Request::Column {
        values: first.value,
        rows,
    })
}
