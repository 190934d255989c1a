// The version of a value that a stamp sees: along the links, the slot number falls at each.
ghost use Rattle.std.specs.Prelude.{◌≡◌, ◌<◌, ◌≤◌, length};
ghost use Rattle.history.specs.Version.{version_slot, slot_seen, base_seen, Headed, Based};

use tables::{Stamp, Value};

// A version: its slot, and where the changes after its stamp start.
#[derive(Clone, Copy)]
pub struct Base {
    pub slot: usize,
    pub from: usize,
}

// From slot i along the links, the first slot whose stamp is at most s. A link that does not fall ends the search.
pub fn version(slots: &[u32], i: usize, s: Stamp) -> usize
    requires { (i < 96) × (288 ≤ length slots.now) }
    ensures { result ≡ version_slot slots.now s.0 i }
{
    let b = tables::slot_stamp(slots, i);
    if b.0 <= s.0 {
        return i;
    }
    let Some(before) = tables::slot_link(slots, i) else {
        return i;
    };
    if i <= before {
        return i;
    }
    version(slots, before, s)
}

// The slot of value v that s sees.
pub fn version_of(slots: &[u32], heads: &[u32], v: Value, s: Stamp) -> usize
    requires { Headed slots.now heads.now v.0 }
    ensures { (result < 96) × (result ≡ slot_seen slots.now heads.now s.0 v.0) }
{
    version(slots, tables::head_of(heads, v), s)
}

// The version of value v that s sees.
pub fn base_of(slots: &[u32], heads: &[u32], log: &[u32], v: Value, s: Stamp) -> Base
    requires { Based slots.now heads.now log.now s.0 v.0 }
    ensures { (result.slot < 96) × (result ≡ base_seen slots.now heads.now log.now s.0 v.0) }
{
    let slot = version_of(slots, heads, v, s);
    let from = tables::end_at(log, tables::slot_stamp(slots, slot));
    Base { slot, from }
}
