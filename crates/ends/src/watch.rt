// A watch on one byte of those that go by. No contract can name what the system was handed or gave, and the program keeps none of it: so
// the code that hands bytes over or is given them lets a watch see them, and contracts hold whichever byte is watched. It costs two
// comparisons a piece.
ghost use Rattle.std.specs.Prelude.{◌≡◌};
ghost use Rattle.ends.specs.Watch as watching;

// How many bytes are still to go by before the watched one, or which byte that was.
#[derive(Clone, Copy, Debug, PartialEq, Eq)]
pub enum Watch {
    Until(usize),
    Seen(u8),
}

impl Watch {
    // A watch on byte number `place`, from 0, before any byte.
    pub fn fresh(place: usize) -> Watch
        ensures { result ≡ watching.fresh place }
    {
        Watch::Until(place)
    }

    // Some bytes go by.
    pub fn pass(&mut self, bytes: &[u8])
        ensures { self.new ≡ watching.watched self.old bytes.now }
    {
        if let Watch::Until(place) = *self {
            *self = match bytes.get(place) {
                Some(byte) => Watch::Seen(*byte),
                None => Watch::Until(place - bytes.len()),
            };
        }
    }
}
