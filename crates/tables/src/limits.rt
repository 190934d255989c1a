// The limits of document 01, each under a name of its own, and how many cells the tables have by them.

// C from 1 to 32; a flip set has 32 values.
pub const MAX_VALUES: u32 = 32;

// Rows are numbered from 0, at most 2,048.
pub const MAX_ROWS: u32 = 2048;

// Versions: at most 96 slots.
pub const MAX_SLOTS: u32 = 96;

// Log: at most 512 records.
pub const MAX_RECORDS: u32 = 512;

// At most 2,048 changes in all.
pub const MAX_CHANGES: u32 = 2048;

// The session table has 16 places.
pub const MAX_SESSIONS: u32 = 16;

// A list of at most 32 entries.
pub const MAX_ENTRIES: u32 = 32;

// A vector has 32 words of 64 bits.
pub const VECTOR_WORDS: u32 = 32;

// The cells of the version table: the value, the stamp and the link of each slot.
pub const SLOT_CELLS: usize = 3 * MAX_SLOTS as usize;

// The words of the version table: a vector of each slot.
pub const SLOT_WORDS: usize = (MAX_SLOTS * VECTOR_WORDS) as usize;

// The heads: a cell of each value.
pub const HEAD_CELLS: usize = MAX_VALUES as usize;

// The cells of the log: the stamp, the kind, the row count and the end of each record.
pub const LOG_CELLS: usize = 4 * MAX_RECORDS as usize;

// The cells of the change table: the row and the flip set of each change.
pub const CHANGE_CELLS: usize = 2 * MAX_CHANGES as usize;
