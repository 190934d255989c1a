// Why a call refuses, and the number of each reason: document 01's 1 to 19, then those of the requests.
ghost use Rattle.std.specs.Prelude.{◌≡◌};
ghost use Rattle.tables.specs.Refusals.{number_of};

// The reasons, each with its number.
#[derive(Clone, Copy, Debug, PartialEq, Eq)]
pub enum Refusal {
    NoRoom = 1,
    Damaged = 2,
    BadColumn = 3,
    NoSession = 4,
    NotOpen = 5,
    NoValue = 6,
    NoRow = 7,
    RowAbsent = 8,
    ListFull = 9,
    ShortScratch = 10,
    ListEmpty = 11,
    Conflict = 12,
    NothingToMove = 13,
    Stale = 14,
    RowsFull = 15,
    RecordsFull = 16,
    ChangesFull = 17,
    SlotsFull = 18,
    Unreadable = 19,
    Backward = 20,
    ShortList = 21,
}

// The number of a reason.
impl From<Refusal> for u32 {
    ghost from_gives = { λ why r. r ≡ number_of why };

    fn from(why: Refusal) -> u32 {
        why as u32
    }
}
