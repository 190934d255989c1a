// A line of the step program: what it asks for is done, and its answer written. Assumes nothing.
#![tactic(auto)]

mod one_line;
mod printing;
mod turns;

pub use one_line::line;
