// The cores of begin, update, delete, insert and abort: what writes to a session alone. Assumes nothing.
#![tactic(auto)]

mod begin;
mod change;

pub use begin::{abort_in, begin_in};
pub use change::{delete_in, insert_in, update_in};
