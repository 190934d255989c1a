// A call's answer in numbers, as C reads it.
ghost use Rattle.std.specs.Prelude.{◌≡◌};
ghost use Rattle.outcomes.specs.Said.{said, place_of};
ghost use Rattle.kerenvuf.specs.Heard.{encoded, kv, place_number};

use outcomes::{Answer, Place};
use tables::Refusal;

// An answer: the refusal, or 0; what it holds (0 refused, 1 count, 2 stamp and count, 3 value, 4 absent, 5 query); its numbers, 0 where
// the kind names none. C reads numbers, so that kinds and refusals are numbers here.
#[repr(C)]
#[derive(Clone, Copy)]
pub struct KvAnswer {
    pub refusal: u32,
    pub kind: u32,
    pub a: u32,
    pub b: u32,
    pub c: u32,
}

// An answer of these numbers.
fn kv_of(refusal: u32, kind: u32, a: u32, b: u32, c: u32) -> KvAnswer
    ensures { result ≡ kv refusal kind a b c }
{
    KvAnswer {
        refusal,
        kind,
        a,
        b,
        c,
    }
}

// Where a query's words stand, as a number: 0 the scratch, else the slot's number and 1.
fn place_number(place: Place) -> u32
    ensures { result ≡ place_number (place_of place) }
{
    match place {
        Place::Scratch => 0,
        Place::Slot(i) => {
            if 96 <= i {
                return 97;
            }
            (i as u32) + 1
        }
    }
}

// A call's answer in numbers.
impl From<Result<Answer, Refusal>> for KvAnswer {
    ghost from_gives = { λ answer r. r ≡ encoded (said answer) };

    fn from(answer: Result<Answer, Refusal>) -> KvAnswer {
        match answer {
            Err(why) => kv_of(u32::from(why), 0, 0, 0, 0),
            Ok(Answer::Count(n)) => kv_of(0, 1, n, 0, 0),
            Ok(Answer::At(s, n)) => kv_of(0, 2, s.0, n.0, 0),
            Ok(Answer::Read(Some(v))) => kv_of(0, 3, v.0, 0, 0),
            Ok(Answer::Read(None)) => kv_of(0, 4, 0, 0, 0),
            Ok(Answer::Listed(n, due, place)) => {
                kv_of(0, 5, n, u32::from(due), place_number(place))
            }
        }
    }
}
