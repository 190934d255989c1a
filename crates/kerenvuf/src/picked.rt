// The words that a query picked, copied for C.
ghost use Rattle.std.specs.Prelude.{◌≡◌};
ghost use Rattle.outcomes.specs.Said.{place_of};
ghost use Rattle.kerenvuf.specs.Picked.{copied, copied_to, place_named, picked_to};

use outcomes::Place;

// The place that a number names: 0 the scratch, else the slot of that number less 1.
fn place_named(place: u64) -> Place
    ensures { place_of result ≡ place_named place }
{
    if place == 0 {
        return Place::Scratch;
    }
    Place::Slot((place - 1) as usize)
}

// A part of 32 words copied over the first 32 of `out`: 32; or 0, and `out` as it was, where it is no such part or `out` has fewer.
fn copy_to(part: &[u64], out: &mut [u64]) -> u32
    ensures { copied out.new result ≡ copied_to part.now out.old }
{
    if part.len() != 32 {
        return 0;
    }
    if out.len() < 32 {
        return 0;
    }
    vectors::copy(&mut out[..32], part);
    32
}

// The 32 words that a query's place names, copied to `out`: 32; or 0, and `out` as it was, where those words were not lent or `out` has
// fewer than 32.
#[unsafe(no_mangle)]
pub extern "C" fn kv_picked<'a>(
    words: &'a [u64],
    scratch: &'a [u64],
    place: u64,
    out: &mut [u64],
) -> u32
    ensures { copied out.new result ≡ picked_to words.now scratch.now place out.old }
{
    let part = index::picked(words, scratch, place_named(place));
    copy_to(part, out)
}
