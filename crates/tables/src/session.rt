// One session, by value.
ghost use Rattle.std.specs.Prelude.{◌≡◌, ◌<◌};
ghost use Rattle.tables.specs.Sessions.{freed, begun, with_entry};

use crate::counts::{Row, Stamp};

// The row cell of an entry that is an insert.
pub const NEW: u16 = 65535;

// A session: whether it is open (1) or free (0), its start, the row count of that moment, and its list. Entry i below
// `count` is row `at[i]` with target `to[i]` (255: absent), or, where `at[i]` is NEW, an insert of `to[i]`. C reads these very
// cells: so numbers and two arrays beside a count, and no enum or list of entries.
#[repr(C)]
#[derive(Clone, Copy)]
pub struct Session {
    pub live: u32,
    pub start: Stamp,
    pub rows: Row,
    pub count: u32,
    pub at: [u16; 32],
    pub to: [u8; 32],
}

// A free session: all its cells are 0.
pub fn free_session() -> Session
    ensures { result ≡ freed }
{
    Session {
        live: 0,
        start: Stamp(0),
        rows: Row(0),
        count: 0,
        at: [0; 32],
        to: [0; 32],
    }
}

// A session that was just opened.
pub fn opened_session(start: Stamp, rows: Row) -> Session
    ensures { result ≡ begun start rows }
{
    Session {
        live: 1,
        start,
        rows,
        count: 0,
        at: [0; 32],
        to: [0; 32],
    }
}

// The session with entry i set, and `count` entries.
pub fn with_entry(s: Session, i: usize, at: u16, to: u8, count: u32) -> Session
    requires { i < 32 }
    ensures { result ≡ with_entry s i at to count }
{
    let mut next = s;
    next.at[i] = at;
    next.to[i] = to;
    next.count = count;
    next
}
