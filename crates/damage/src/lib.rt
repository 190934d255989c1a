// Refusals 1 and 2: whether every table is lent with room, and whether the lent tables are not damaged. These run at every
// call. The contracts are equalities with the definitions of tables/specs. Assumes nothing.
#![tactic(auto)]

mod clock;
mod number_tables;
mod rooms;
mod slots;
mod tails;

pub use number_tables::numbers_fit;
pub use rooms::room;
