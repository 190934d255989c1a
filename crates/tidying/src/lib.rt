// The core of tidy. Assumes nothing.
#![tactic(auto)]

mod tidy;

pub use tidy::tidy_in;
