// A session's list: where a row stands in it, what a target says, how many inserts it has.
ghost use Rattle.std.specs.Prelude.{◌≡◌, ◌≤◌, length};
ghost use Rattle.rules.specs.Lists as rules;
ghost use Rattle.tables.specs.Meaning.{target_of, entries};
ghost use Rattle.history.specs.Read.{standing_of};
ghost use Rattle.outcomes.specs.Calls.{spot_of};

use tables::{Row, Session, Value};

// Where in the list a row stands: its entry, or the count where it is not listed.
pub fn spot_of(s: Session, row: Row) -> usize
    requires { s.count ≤ 32 }
    ensures { result ≡ spot_of s row.0 }
{
    let n = s.count as usize;
    for i in 0..n {
        if u32::from(s.at[i]) == row.0 {
            return i;
        }
    }
    n
}

// A target cell as what a row holds.
pub fn target_of(to: u8) -> Option<Value>
    ensures { standing_of result ≡ target_of to }
{
    match to {
        255 => None,
        v => Some(Value(u32::from(v))),
    }
}

// How many entries of the list are inserts.
pub fn inserts(s: Session) -> u32
    requires { s.count ≤ 32 }
    ensures { result ≡ length (rules.inserts (entries s)) }
{
    let mut k = 0;
    for i in 0..s.count as usize {
        if s.at[i] == tables::NEW {
            k += 1;
        }
    }
    k
}
