// A line answered.
ghost use Rattle.std.specs.Prelude.{◌≡◌, ◌≤◌};
ghost use Rattle.tables.specs.Cells.{tables};
ghost use Rattle.lines.specs.Line.{line_outcome, line_of};

use crate::{printing, turns};
use tables::Session;

// A line, without its newline, is answered: the tables and the scratch are changed, and the answer with a newline stands at
// the front of `out`; how many bytes it has. A column's values go through `column`. Where one of the two buffers is too short for some
// line (10,276 and 4,096 bytes), nothing is done, and the answer has no byte.
pub fn line(
    clock: &mut [u32],
    slots: &mut [u32],
    words: &mut [u64],
    heads: &mut [u32],
    log: &mut [u32],
    changes: &mut [u32],
    sessions: &mut [Session],
    scratch: &mut [u64],
    column: &mut [u8],
    bytes: &[u8],
    out: &mut [u8],
) -> usize
    ensures line_value { line_outcome (tables clock.new slots.new words.new heads.new log.new
        changes.new sessions.new)
        scratch.new column.new out.new result ≡ line_of
        (tables clock.old slots.old words.old heads.old log.old
        changes.old sessions.old)
        scratch.old column.old out.old bytes.now }
    ensures len_bound { result ≤ 10276 }
{
    if column.len() < 4096 {
        return 0;
    }
    if out.len() < 10276 {
        return 0;
    }
    let wish = text::request(bytes, column);
    let answer = turns::turn(
        clock, slots, words, heads, log, changes, sessions, scratch, column, wish,
    );
    printing::put_line(out, answer, words, scratch)
}
