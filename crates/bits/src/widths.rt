// An index as a number of 32 bits.
ghost use Rattle.std.specs.Prelude.{◌≡◌, ◌<◌};

// An index below 2 ^ 32 as a u32. `as u32` in its place, in the loop over a query's words, costs an evening 0.5 % more instructions.
pub fn narrow(x: usize) -> u32
    requires { x < 4294967296 }
    ensures { result ≡ x }
{
    x as u32
}
