// The cores of query, span and read, and the picker. Assumes nothing.
#![tactic(auto)]

mod query;
mod span;

pub use query::{picked, query_in, read_in};
pub use span::span_in;
