// What a call answers, and what begin comes to for its session.

use tables::{Row, Stamp, Value};

// Where a query's words stand: a slot's own, or the scratch's first 32.
#[derive(Clone, Copy, Debug, PartialEq, Eq)]
pub enum Place {
    Slot(usize),
    Scratch,
}

// What an accepted call answers. `Count` is create's row count, span's number of rows, the list's length (update, delete, insert) or
// the length dropped (abort); `At` a stamp with a row count (begin, commit) or with the number of rows moved (tidy); `Read` is read's;
// `Listed` is query's: flip count, due, and where the words stand.
#[derive(Clone, Copy)]
pub enum Answer {
    Count(u32),
    At(Stamp, Row),
    Read(Option<Value>),
    Listed(u32, bool, Place),
}

// What an accepted begin comes to: a session opened at this start and row count, or one that stands open at them.
#[derive(Clone, Copy)]
pub enum Begun {
    Opened(Stamp, Row),
    Stands(Stamp, Row),
}
