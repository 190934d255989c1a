// Numbers as sets of bits: flip sets (bit v of a u32 for the value v), and what is to be said of vectors (bit r of words of 64 for the row
// r), whose code is the crate `vectors`.
// The contracts cite specs/, where `vec f n` is the n words whose row r is f r. Assumes nothing.
#![tactic(auto)]

mod sets;
mod widths;

pub use sets::{all_below, has, toggle, without};
pub use widths::narrow;
