// The session table: a lent slice of session structs, of which the first 16 places are in use.
ghost use Rattle.std.specs.Prelude.{◌≡◌, ◌&&◌, ltb, length};
ghost use Rattle.lent.specs.Places.{seat_at, put_at, opened_at, freed_at, freed_all};
ghost use Rattle.lent.specs.Seats.{all_fit};

use tables::{Clock, Row, Session, Stamp};

// How many places the slice has.
pub fn places(t: &[Session]) -> usize
    ensures { result ≡ length t.now }
{
    t.len()
}

// Whether place i is one of the 16, and one that the slice has.
fn within(i: usize, places: usize) -> bool
    ensures { result ≡ ltb i 16 && ltb i places }
{
    (i < 16) & (i < places)
}

// The session at place n; a free one where n is no place.
pub fn place(t: &[Session], n: u64) -> Session
    ensures { result ≡ seat_at t.now n }
{
    let i = n as usize;
    if within(i, t.len()) {
        t[i]
    } else {
        tables::free_session()
    }
}

// A session is put at place n; where n is no place, nothing changes.
pub fn put(t: &mut [Session], n: u64, s: Session)
    ensures { t.new ≡ put_at t.old n s }
{
    let i = n as usize;
    if within(i, t.len()) {
        t[i] = s;
    }
}

// The session at place n is opened.
pub fn open(t: &mut [Session], n: u64, start: Stamp, rows: Row)
    ensures { t.new ≡ opened_at t.old n start rows }
{
    put(t, n, tables::opened_session(start, rows));
}

// The session at place n is freed.
pub fn free(t: &mut [Session], n: u64)
    ensures { t.new ≡ freed_at t.old n }
{
    put(t, n, tables::free_session());
}

// Every place is freed.
pub fn free_all(t: &mut [Session])
    ensures { t.new ≡ freed_all t.old }
{
    for n in 0..16 {
        free(t, n);
    }
}

// Whether there are 16 places, and every one fits.
pub fn all_fit(t: &[Session], log: &[u32], c: Clock) -> bool
    ensures { result ≡ all_fit t.now log.now c }
{
    if t.len() < 16 {
        return false;
    }
    let mut ok = true;
    for i in 0..16 {
        ok = ok & session_damage::session_fits(t[i], log, c);
    }
    ok
}
