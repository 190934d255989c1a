// The search for a record after the start that names a listed row: a conflict. Assumes nothing.
#![tactic(auto)]

ghost use Rattle.std.specs.Prelude.{◌≡◌, ◌<◌, ◌≤◌, length};
ghost use Rattle.bits.specs.Tab.{tab};
ghost use Rattle.rules.specs.Commit.{conflicts, some_of, hits};
ghost use Rattle.rules.specs.Log.{names};
ghost use Rattle.tables.specs.Meaning.{change_at, record_at, entry_at, entries};
ghost use Rattle.tables.specs.Stretch.{stretch};
ghost use Rattle.conflict.specs.Searched.{Searched};

use tables::{Session, Stamp};

// Whether one of the changes from `from` to `to` names the row: a fold.
fn row_named(changes: &[u32], from: usize, to: usize, row: u32) -> bool
    requires { (to ≤ 2048) × (4096 ≤ length changes.now) }
    ensures { result ≡ names (stretch (change_at changes.now) from to) row }
{
    let mut any = false;
    for p in from..to {
        any |= changes[p] == row;
    }
    any
}

// Whether entry i has a row and one of the changes from `from` to `to` names it.
fn entry_named(changes: &[u32], from: usize, to: usize, s: Session, i: usize) -> bool
    requires { (i < 32) × (to ≤ 2048) × (4096 ≤ length changes.now) }
    ensures { result ≡ hits (stretch (change_at changes.now) from to) (entry_at s i) }
{
    let at = s.at[i];
    if at == tables::NEW {
        return false;
    }
    row_named(changes, from, to, u32::from(at))
}

// Whether one of the first n entries has a row that one of the changes from `from` to `to` names.
fn entries_named(changes: &[u32], from: usize, to: usize, s: Session, n: usize) -> bool
    requires { (n ≤ 32) × (to ≤ 2048) × (4096 ≤ length changes.now) }
    ensures { result ≡ some_of (hits (stretch (change_at changes.now) from to)) (stretch (entry_at s) 0 n) }
{
    (0..n).any(|i| entry_named(changes, from, to, s, i))
}

// Whether the changes after the start, asked as one stretch, name a listed row.
fn any_named(log: &[u32], changes: &[u32], s: Session, last: Stamp) -> bool
    requires { Searched log.now changes.now s last.0 }
    ensures { result ≡ conflicts (tab (record_at log.now changes.now) last.0) s.start.0 (entries s) }
{
    let from = tables::end_at(log, s.start);
    let to = tables::end_at(log, last);
    entries_named(changes, from, to, s, s.count as usize)
}

// Whether a record after the start names a listed row: one straight pass, which says no at once, and then the search, which stops at the
// first that does.
pub fn clash(log: &[u32], changes: &[u32], s: Session, last: Stamp) -> bool
    requires { Searched log.now changes.now s last.0 }
    ensures { result ≡ conflicts (tab (record_at log.now changes.now) last.0) s.start.0 (entries s) }
{
    if !any_named(log, changes, s, last) {
        return false;
    }
    let mut found = false;
    'records: for k in s.start.0..last.0 {
        let from = tables::end_at(log, Stamp(k));
        let to = tables::end_at(log, Stamp(k + 1));
        for i in 0..s.count as usize {
            if entry_named(changes, from, to, s, i) {
                found = true;
                break 'records;
            }
        }
    }
    found
}
