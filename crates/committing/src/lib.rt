// The core of commit. Assumes nothing.
#![tactic(auto)]

mod commit;
mod writes;

pub use commit::commit_in;
