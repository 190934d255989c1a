// The core of create. Assumes nothing.
#![tactic(auto)]

mod create;

pub use create::create_in;
