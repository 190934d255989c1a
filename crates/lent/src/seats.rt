// What a call sees of the session table.
ghost use Rattle.std.specs.Prelude.{◌≡◌};
ghost use Rattle.lent.specs.Seats.{seat_of};

use crate::sessions::{all_fit, place, places};
use tables::Session;

// How many places there are, whether every one fits, and the one session that the call names.
#[derive(Clone, Copy)]
pub struct Seat {
    pub places: usize,
    pub fit: bool,
    pub session: Session,
}

// The seat of session n.
pub fn seat_of(clock: &[u32], log: &[u32], t: &[Session], n: u64) -> Seat
    ensures { result ≡ seat_of clock.now log.now t.now n }
{
    Seat {
        places: places(t),
        fit: all_fit(t, log, tables::clock_lent(clock)),
        session: place(t, n),
    }
}
