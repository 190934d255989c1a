// Flip sets: bit v of a u32 is set where the value v is in the set.
ghost use Rattle.std.specs.Prelude.{◌≡◌, ◌^◌, ◌<◌};
ghost use Rattle.bits.specs.Bit.{bit, flip_bit, clear_bit};
ghost use Rattle.bits.specs.Sets.{set_below};

// Whether the set has v.
#[tactic(auto, unfolding(crate::specs::Bit::bit))]
pub fn has(set: u32, v: u32) -> bool
    requires { v < 32 }
    ensures { result ≡ bit set v }
{
    (set >> v) % 2 == 1
}

// The set with v turned over.
#[tactic(auto, using(crate::proofs::BitLaws::one_shl), unfolding(crate::specs::Bit::flip_bit))]
pub fn toggle(set: u32, v: u32) -> u32
    requires { v < 32 }
    ensures { result ≡ flip_bit set v }
{
    set ^ (1 << v)
}

// The set less v.
#[tactic(auto, using(crate::proofs::BitLaws::one_shl), unfolding(crate::specs::Bit::clear_bit))]
pub fn without(set: u32, v: u32) -> u32
    requires { v < 32 }
    ensures { result ≡ clear_bit set v }
{
    (set | (1 << v)) ^ (1 << v)
}

// Whether every value of the set is below c.
pub fn all_below(set: u32, c: u32) -> bool
    ensures { result ≡ set_below set c }
{
    if c < 32 { (set >> c) == 0 } else { true }
}
