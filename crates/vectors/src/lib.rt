// Vectors: words of 64 rows, bit r of them for the row r; the rows of one listed, and columns turned into them. The contracts cite the
// definitions of `bits`, where `vec f n` is the n words whose row r is f r. Assumes nothing.
#![tactic(auto)]

mod columns;
mod rows;
mod words;

pub use columns::set_columns;
pub use rows::list_rows;
pub use words::{
    clear, copy, count, get, get_in, merge, put_in, tail_clear, tails_clear, xor_into,
};
