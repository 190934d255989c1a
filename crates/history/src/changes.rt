// The last change that names a row: the search begins at the newest and goes back, in blocks of 64, to the first one that does; and whether
// any does.
ghost use Rattle.std.specs.Prelude.{◌≡◌, ◌+◌, ◌≤◌, length};
ghost use Rattle.rules.specs.Log.{names};
ghost use Rattle.tables.specs.Meaning.{change_at};
ghost use Rattle.tables.specs.Stretch.{stretch};
ghost use Rattle.history.specs.Last.{one_past, set_of, last_place, last_of};

use tables::Row;

// The last change that names a row: its place, and its flip set.
#[derive(Clone, Copy)]
pub struct Last {
    pub at: usize,
    pub set: u32,
}

// The flip set of a row's last change: 0 where no change names the row.
pub fn set_of(last: Option<Last>) -> u32
    ensures { result ≡ set_of last }
{
    last.map_or(0, |l| l.set)
}

// Whether one of the 64 changes from `from` on names the row.
fn block_names(changes: &[u32], from: usize, row: u32) -> bool
    requires { from + 64 ≤ length changes.now }
    ensures { result ≡ names (stretch (change_at changes.now) from (from + 64)) row }
{
    let mut found = false;
    for c in &changes[from..from + 64] {
        found |= *c == row;
    }
    found
}

// The changes up to `to` without the last blocks of 64 that do not name the row: where they end. The step is a block, no count.
fn blocks_before(changes: &[u32], to: usize, row: u32) -> usize
    requires { to ≤ length changes.now }
    ensures { (result ≤ to) × (last_place changes.now row to ≡ last_place changes.now row result) }
{
    let mut e = to;
    while 64 <= e {
        if block_names(changes, e - 64, row) {
            return e;
        }
        e -= 64;
    }
    e
}

// The place of the last of the first `to` changes that names the row.
fn last_place(changes: &[u32], to: usize, row: u32) -> Option<usize>
    requires { to ≤ length changes.now }
    ensures { one_past result ≡ last_place changes.now row to }
{
    let end = blocks_before(changes, to, row);
    changes[..end].iter().rposition(|c| *c == row)
}

// The last of the first `to` changes that names the row.
pub fn last_naming(changes: &[u32], to: usize, row: Row) -> Option<Last>
    requires { (to ≤ 2048) × (4096 ≤ length changes.now) }
    ensures { result ≡ last_of changes.now to row.0 }
{
    let at = last_place(changes, to, row.0)?;
    Some(Last {
        at,
        set: tables::change_set(changes, at),
    })
}

// Whether one of the changes from `from` to `to` names the row. A loop: `any` over the places took twice as long.
pub fn named(changes: &[u32], from: usize, to: usize, row: Row) -> bool
    requires { (to ≤ 2048) × (4096 ≤ length changes.now) }
    ensures { result ≡ names (stretch (change_at changes.now) from to) row.0 }
{
    for p in from..to {
        if changes[p] == row.0 {
            return true;
        }
    }
    false
}
