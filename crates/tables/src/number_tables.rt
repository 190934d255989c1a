// The six number tables as they are read together, and the two kinds of a record.

// The lent number tables, to be read: the clock, the slots and their words ("versions" of document 01), the heads, the log, the changes.
#[derive(Clone, Copy)]
pub struct NumberTables<'a> {
    pub clock: &'a [u32],
    pub slots: &'a [u32],
    pub words: &'a [u64],
    pub heads: &'a [u32],
    pub log: &'a [u32],
    pub changes: &'a [u32],
}

// What a record is of, with the number in its cell.
#[derive(Clone, Copy, Debug, PartialEq, Eq)]
pub enum Kind {
    Commit = 1,
    Tidy = 2,
}
