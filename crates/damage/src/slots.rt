// The slots and the heads.
ghost use Rattle.std.specs.Prelude.{◌≡◌, true, ◌+◌, ◌<◌, ◌≤◌, length};
ghost use Rattle.bits.specs.All.{all_below};
ghost use Rattle.tables.specs.Damage.{all_in, clock_fits, first_slot_fits, later_slot_fits, slots_fit, head_fits, heads_fit};
ghost use Rattle.damage.specs.Parts.{link_fits};

use tables::{Stamp, Value};

// Whether slot i, below C, has value i, stamp 0 and no link.
#[tactic(auto, unfolding(tables::specs::Damage::first_slot_fits))]
fn first_slot_fits(slots: &[u32], i: usize) -> bool
    requires { (i < 96) × (288 ≤ length slots.now) }
    ensures { result ≡ first_slot_fits slots.now i }
{
    (slots[i] == i as u32) & (slots[96 + i] == 0) & (slots[192 + i] == 0)
}

// Whether each of the first n slots does.
fn first_slots_fit(slots: &[u32], n: usize) -> bool
    requires { (n ≤ 96) × (288 ≤ length slots.now) }
    ensures { result ≡ all_below (first_slot_fits slots.now) n }
{
    let mut ok = true;
    for i in 0..n {
        ok &= first_slot_fits(slots, i);
    }
    ok
}

// Whether slot i links to an earlier slot of its value with a smaller stamp.
#[tactic(auto, unfolding(crate::specs::Parts::link_fits))]
fn link_fits(slots: &[u32], i: usize) -> bool
    requires { (i < 96) × (288 ≤ length slots.now) }
    ensures { result ≡ link_fits slots.now i }
{
    let Some(j) = tables::slot_link(slots, i) else {
        return false;
    };
    if i <= j {
        return false;
    }
    (slots[j] == slots[i]) & (slots[96 + j] < slots[96 + i])
}

// Whether each of the slots from C on has a value below C, a stamp at most the current one and a link.
fn later_slots_fit(slots: &[u32], values: Value, last: Stamp, used: usize) -> bool
    requires { (used ≤ 96) × (288 ≤ length slots.now) }
    ensures { result ≡ all_in (later_slot_fits values.0 last.0 slots.now) values.0 used }
{
    for i in values.0 as usize..used {
        let fits = (slots[i] < values.0) & (slots[96 + i] <= last.0);
        if !(fits & link_fits(slots, i)) {
            return false;
        }
    }
    true
}

// Whether every slot in use is sound.
pub fn slots_fit(clock: &[u32], slots: &[u32]) -> bool
    requires { (6 ≤ length clock.now) × (288 ≤ length slots.now) × (clock_fits clock.now ≡ true) }
    ensures { result ≡ slots_fit clock.now slots.now }
{
    let c = tables::clock_of(clock);
    let used = tables::slots_used(clock) as usize;
    first_slots_fit(slots, c.values.0 as usize) & later_slots_fit(slots, c.values, c.stamp, used)
}

// Whether head v names a slot in use of value v.
#[tactic(auto, unfolding(tables::specs::Damage::head_fits))]
fn head_fits(slots: &[u32], heads: &[u32], used: usize, v: Value) -> bool
    requires { (v.0 < 32) × (used ≤ 96) × (288 ≤ length slots.now) × (32 ≤ length heads.now) }
    ensures { result ≡ head_fits used slots.now heads.now v.0 }
{
    let h = tables::head_of(heads, v);
    h < used && slots[h] == v.0
}

// Whether every head below C is sound.
pub fn heads_fit(clock: &[u32], slots: &[u32], heads: &[u32]) -> bool
    requires { (6 ≤ length clock.now) × (288 ≤ length slots.now) × (32 ≤ length heads.now) × (clock_fits clock.now ≡ true) }
    ensures { result ≡ heads_fit clock.now slots.now heads.now }
{
    let used = tables::slots_used(clock) as usize;
    for v in 0..clock[0] {
        if !head_fits(slots, heads, used, Value(v)) {
            return false;
        }
    }
    true
}
