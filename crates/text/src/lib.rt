// The step program's language: a line of bytes read into a request, lines gathered from chunks. What an answer looks like is defined
// here too, and written by the crate `writing`.
// The functions are on slices alone, and require no more than room. Assumes nothing.
#![tactic(auto)]

mod cells;
mod feed;
mod read;
mod requests;
mod words;

pub use feed::{Fed, feed_line, gather, newline_from};
pub use read::request;
pub use requests::Request;
