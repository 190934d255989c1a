// An answer written as bytes. The functions are on slices alone, and require no more than room. Assumes nothing.
#![tactic(auto)]

mod digits;
mod replies;
mod rows;

pub use replies::{put_absent, put_end, put_no, put_ok_one, put_ok_two};
pub use rows::put_queried;
