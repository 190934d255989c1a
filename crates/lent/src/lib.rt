// The clock record by `&mut`, and the session table as a lent slice: thin functions.
// Assumes nothing.
#![tactic(auto)]

mod clock;
mod seats;
mod sessions;

pub use clock::{advance, ticked};
pub use seats::{Seat, seat_of};
pub use sessions::{all_fit, free, free_all, open, place, places, put};
