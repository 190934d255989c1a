// The lent tables: the three counts as types, the clock record, a session, and where each number lies in the cells.
// No table is indexed outside these functions and the damage check. Assumes nothing.
#![tactic(auto)]

mod cells;
mod clock;
mod counts;
mod limits;
mod number_tables;
mod refusal;
mod session;

pub use cells::{
    change_row, change_set, end_at, head_of, put_change, put_head, put_record, put_slot, rows_at,
    slot_link, slot_stamp,
};
pub use clock::{
    Clock, advanced, changes_used, clock_lent, clock_of, put_changes_used, put_clock, put_moment,
    put_slots_used, slots_used,
};
pub use counts::{Row, Stamp, Value};
pub use limits::{
    CHANGE_CELLS, HEAD_CELLS, LOG_CELLS, MAX_CHANGES, MAX_ENTRIES, MAX_RECORDS, MAX_ROWS,
    MAX_SESSIONS, MAX_SLOTS, MAX_VALUES, SLOT_CELLS, SLOT_WORDS, VECTOR_WORDS,
};
pub use number_tables::{Kind, NumberTables};
pub use refusal::Refusal;
pub use session::{NEW, Session, free_session, opened_session, with_entry};
