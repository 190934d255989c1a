// What each call leaves in the lent tables and answers, as definitions; the answers, the refusals that the calls
// share, and what stands in a session's list. Assumes nothing.
#![tactic(auto)]

mod answers;
mod enter;
mod lists;
mod narrow;

pub use answers::{Answer, Begun, Place};
pub use enter::{opened, placed, valued};
pub use lists::{inserts, spot_of, target_of};
pub use narrow::{row_of, value_of};
