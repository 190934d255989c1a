// Slots, heads, records and changes: where each number lies. The tables are kept by column, so that no index needs a product.
ghost use Rattle.std.specs.Prelude.{◌≡◌, ◌+◌, ◌-◌, ◌<◌, ◌≤◌, length, set};
ghost use Rattle.tables.specs.Cells.{slot_stamp, slot_link, link_of, head_of, end_at, rows_in_log, change_row, change_set};
ghost use Rattle.tables.specs.Stores.{put_slot, put_head, put_record, put_change};

use crate::counts::{Row, Stamp, Value};

// The stamp of slot i.
pub fn slot_stamp(slots: &[u32], i: usize) -> Stamp
    requires { (i < 96) × (288 ≤ length slots.now) }
    ensures { result.0 ≡ slot_stamp slots.now i }
{
    Stamp(slots[96 + i])
}

// The slot before slot i: the one that its link names, where it has one.
pub fn slot_link(slots: &[u32], i: usize) -> Option<usize>
    requires { (i < 96) × (288 ≤ length slots.now) }
    ensures { link_of result ≡ slot_link slots.now i }
{
    match slots[192 + i] {
        0 => None,
        n => Some(n as usize - 1),
    }
}

// The slot that the head of v names.
pub fn head_of(heads: &[u32], v: Value) -> usize
    requires { (v.0 < 32) × (32 ≤ length heads.now) }
    ensures { result ≡ head_of heads.now v.0 }
{
    heads[v.0 as usize] as usize
}

// Where the changes of records 1 to s end.
pub fn end_at(log: &[u32], s: Stamp) -> usize
    requires { (s.0 ≤ 512) × (2048 ≤ length log.now) }
    ensures { result ≡ end_at log.now s.0 }
{
    if s.0 == 0 {
        return 0;
    }
    log[1535 + s.0 as usize] as usize
}

// The row count at stamp s.
pub fn rows_at(log: &[u32], first: Row, s: Stamp) -> Row
    requires { (s.0 ≤ 512) × (2048 ≤ length log.now) }
    ensures { result.0 ≡ rows_in_log first.0 log.now s.0 }
{
    if s.0 == 0 {
        return first;
    }
    Row(log[1023 + s.0 as usize])
}

// The row of change p.
pub fn change_row(changes: &[u32], p: usize) -> Row
    requires { (p < 2048) × (4096 ≤ length changes.now) }
    ensures { result.0 ≡ change_row changes.now p }
{
    Row(changes[p])
}

// The flip set of change p.
pub fn change_set(changes: &[u32], p: usize) -> u32
    requires { (p < 2048) × (4096 ≤ length changes.now) }
    ensures { result ≡ change_set changes.now p }
{
    changes[2048 + p]
}

// Slot i gets its value, its stamp and its link.
pub fn put_slot(slots: &mut [u32], i: usize, v: Value, s: Stamp, link: u32)
    requires { (i < 96) × (288 ≤ length slots.old) }
    ensures { slots.new ≡ put_slot slots.old i v.0 s.0 link }
{
    slots[i] = v.0;
    slots[96 + i] = s.0;
    slots[192 + i] = link;
}

// The head of v names slot i.
pub fn put_head(heads: &mut [u32], v: Value, i: u32)
    requires { (v.0 < 32) × (32 ≤ length heads.old) }
    ensures { heads.new ≡ put_head heads.old v.0 i }
{
    heads[v.0 as usize] = i;
}

// The record of a stamp gets that stamp, its kind, its row count and the end of its changes. The kind is any number, as a cell holds it:
// a caller passes that of a `Kind`.
pub fn put_record(log: &mut [u32], stamp: Stamp, kind: u32, rows: Row, end: u32)
    requires { (0 < stamp.0) × (stamp.0 ≤ 512) × (2048 ≤ length log.old) }
    ensures { log.new ≡ put_record log.old (stamp.0 - 1) kind rows.0 end }
{
    let k = (stamp.0 - 1) as usize;
    log[k] = stamp.0;
    log[512 + k] = kind;
    log[1024 + k] = rows.0;
    log[1536 + k] = end;
}

// Change p gets its row and its flip set.
pub fn put_change(changes: &mut [u32], p: usize, row: Row, set: u32)
    requires { (p < 2048) × (4096 ≤ length changes.old) }
    ensures { changes.new ≡ put_change changes.old p row.0 set }
{
    changes[p] = row.0;
    changes[2048 + p] = set;
}
