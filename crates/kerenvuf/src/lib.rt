// The index as C calls it: its calls over lent tables, and the words that a query picked. Assumes nothing.
#![tactic(auto)]

mod exports;
mod in_numbers;
mod picked;

pub use exports::{
    kv_abort, kv_begin, kv_commit, kv_create, kv_delete, kv_insert, kv_query, kv_read, kv_span,
    kv_tidy, kv_update,
};
pub use in_numbers::KvAnswer;
pub use picked::kv_picked;
