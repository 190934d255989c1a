// The rows that a stretch of changes flips for a value, as a vector.
ghost use Rattle.std.specs.Prelude.{◌≡◌, ◌<◌, ◌≤◌, length};
ghost use Rattle.bits.specs.Vec.{vec};
ghost use Rattle.tables.specs.Cells.{change_row};
ghost use Rattle.history.specs.Flips.{flipped_in, marked, RowsLow};

use tables::Value;

// Change p decides the bit of its row.
fn mark(mask: &mut [u64; 32], changes: &[u32], p: usize, v: Value)
    requires { (v.0 < 32) × (p < 2048) × (4096 ≤ length changes.now) × (change_row changes.now p < 2048) }
    ensures { mask.new ≡ marked mask.old changes.now p v.0 }
{
    let row = tables::change_row(changes, p);
    let on = bits::has(tables::change_set(changes, p), v.0);
    vectors::put_in(mask, row.0 as usize, on);
}

// The rows whose last change from `from` to `to` has v: one pass forward, for every row is asked for, and the last change of each stands.
pub fn flips(changes: &[u32], from: usize, to: usize, v: Value) -> [u64; 32]
    requires { (v.0 < 32) × RowsLow changes.now from to }
    ensures { result ≡ vec (flipped_in changes.now from to v.0) 32 }
{
    let mut mask = [0u64; 32];
    for p in from..to {
        mark(&mut mask, changes, p, v);
    }
    mask
}
