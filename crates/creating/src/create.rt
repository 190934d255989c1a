// Create: its refusals, and the tables filled from a column. All six tables are written, so they are passed apart, as C lends them.
ghost use Rattle.std.specs.Prelude.{◌≡◌, not, ◌≤◌, length, replicate};
ghost use Rattle.bits.specs.Tab.{tab, over};
ghost use Rattle.bits.specs.Vec.{vec};
ghost use Rattle.bits.specs.Column.{column_bit};
ghost use Rattle.rules.specs.Refusals.{some_outside, bad_column};
ghost use Rattle.tables.specs.Cells.{tables};
ghost use Rattle.outcomes.specs.Calls.{below, column_of, create_of};
ghost use Rattle.creating.specs.Create.{Creatable, Created};
ghost use Rattle.outcomes.specs.Seats.{Creates};

use outcomes::Answer;
use tables::{Clock, NumberTables, Refusal, Row, Stamp, Value};

// Whether each byte of a column is below C or 255.
fn column_known(column: &[u8], values: Value) -> bool
    requires { values.0 ≤ 32 }
    ensures { result ≡ not (some_outside values.0 (column_of column.now)) }
{
    let c = values.0 as u8;
    let mut ok = true;
    for b in column {
        ok = ok & ((*b < c) | (*b == 255));
    }
    ok
}

// 3: whether C or the column is refused.
fn column_refused(values: Value, column: &[u8]) -> bool
    ensures { result ≡ bad_column values.0 (column_of column.now) }
{
    if values.0 == 0 {
        return true;
    }
    if tables::MAX_VALUES < values.0 {
        return true;
    }
    if (tables::MAX_ROWS as usize) < column.len() {
        return true;
    }
    !column_known(column, values)
}

// The first n cells: one for each value becomes its own number, the others 0.
fn numbered(cells: &mut [u32], n: usize, values: Value)
    requires { (values.0 ≤ n) × (n ≤ length cells.old) }
    ensures { cells.new ≡ over (tab (below values.0) n) cells.old }
{
    let c = values.0 as usize;
    for i in 0..n {
        cells[i] = if i < c { i as u32 } else { 0 };
    }
}

// The first n cells become 0.
fn zero_cells(cells: &mut [u32], n: usize)
    requires { n ≤ length cells.old }
    ensures { cells.new ≡ over (replicate n 0) cells.old }
{
    cells[..n].fill(0);
}

// The vectors of a column, and of every other slot none.
fn write_columns(part: &mut [u64], column: &[u8])
    requires { (1024 ≤ length part.old) × (length column.now ≤ 2048) }
    ensures { part.new ≡ vec (column_bit column.now) (length part.old) }
{
    vectors::clear(part);
    vectors::set_columns(part, column);
}

// The number tables of a new index.
fn create_work(
    clock: &mut [u32],
    slots: &mut [u32],
    words: &mut [u64],
    heads: &mut [u32],
    log: &mut [u32],
    changes: &mut [u32],
    values: Value,
    column: &[u8],
) -> Answer
    requires { Creatable clock.old slots.old words.old heads.old log.old changes.old values.0 column.now }
    ensures { Created
        (tables clock.old slots.old words.old heads.old log.old
        changes.old)
        (tables clock.new slots.new words.new heads.new log.new
        changes.new)
        values.0 column.now result }
{
    let rows = Row(column.len() as u32);
    numbered(slots, tables::SLOT_CELLS, values);
    numbered(heads, tables::HEAD_CELLS, values);
    zero_cells(log, tables::LOG_CELLS);
    zero_cells(changes, tables::CHANGE_CELLS);
    write_columns(&mut words[..tables::SLOT_WORDS], column);
    let made = Clock {
        values,
        first: rows,
        stamp: Stamp(0),
        rows,
    };
    tables::put_clock(clock, made, values.0, 0);
    Answer::Count(rows.0)
}

// Create: the row count; every session is to be freed.
pub fn create_in(
    clock: &mut [u32],
    slots: &mut [u32],
    words: &mut [u64],
    heads: &mut [u32],
    log: &mut [u32],
    changes: &mut [u32],
    places: usize,
    c: u64,
    column: &[u8],
) -> Result<Answer, Refusal>
    ensures { Creates
        (tables clock.old slots.old words.old heads.old log.old
        changes.old)
        (tables clock.new slots.new words.new heads.new log.new
        changes.new)
        places result (λ t. create_of t c column.now) }
{
    let t = NumberTables {
        clock,
        slots,
        words,
        heads,
        log,
        changes,
    };
    if !damage::room(t, places) {
        return Err(Refusal::NoRoom);
    }
    let values = outcomes::value_of(c);
    if column_refused(values, column) {
        return Err(Refusal::BadColumn);
    }
    Ok(create_work(clock, slots, words, heads, log, changes, values, column))
}
