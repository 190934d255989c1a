// The index: its calls over lent tables, and the picker of a query's words. Assumes nothing.
#![tactic(auto)]

mod outer;

pub use outer::{abort, begin, commit, create, delete, insert, query, read, span, tidy, update};
pub use reading::picked;
