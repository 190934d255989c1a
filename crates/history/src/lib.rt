// What the log and the versions say at a stamp: the last change naming a row, the version of a value, query, span and read.
// Assumes nothing.
#![tactic(auto)]

mod chain;
mod changes;
mod mask;
mod query;
mod read;
mod span;
mod vector;

pub use chain::{Base, base_of, version, version_of};
pub use changes::{Last, last_naming, named, set_of};
pub use mask::flips;
pub use query::{Found, query_at};
pub use read::{read_after, read_at};
pub use span::span_at;
pub use vector::slot_words;
