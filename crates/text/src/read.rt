// A line read into a request.
ghost use Rattle.std.specs.Prelude.{◌≤◌, length};
ghost use Rattle.text.specs.Asked.{Requested};

use crate::requests::{Request, column_request, numbers};
use crate::words;
use crate::words::Word;

// A longer line is not read.
const LONGEST_LINE: usize = 8192;

// What a line asks for, if it can be read. A column's values go into `column` from its front,
// which takes one for each two bytes of the longest line.
pub fn request(line: &[u8], column: &mut [u8]) -> Option<Request>
    requires { 4096 ≤ length column.old }
    ensures { Requested line.now column.old column.new result }
{
    if LONGEST_LINE < line.len() {
        return None;
    }
    let at = fields::end_from(line, 0, b' ');
    let word = words::word_of(&line[..at])?;
    match word {
        Word::Column => column_request(line, at, column),
        Word::Begin => {
            let [session] = numbers::<1>(line, at)?;
            Some(Request::Begin { session })
        }
        Word::Query => {
            let [session, value] = numbers::<2>(line, at)?;
            Some(Request::Query { session, value })
        }
        Word::Read => {
            let [session, row] = numbers::<2>(line, at)?;
            Some(Request::Read { session, row })
        }
        Word::Update => {
            let [session, row, value] = numbers::<3>(line, at)?;
            Some(Request::Update {
                session,
                row,
                value,
            })
        }
        Word::Delete => {
            let [session, row] = numbers::<2>(line, at)?;
            Some(Request::Delete { session, row })
        }
        Word::Insert => {
            let [session, value] = numbers::<2>(line, at)?;
            Some(Request::Insert { session, value })
        }
        Word::Commit => {
            let [session] = numbers::<1>(line, at)?;
            Some(Request::Commit { session })
        }
        Word::Tidy => {
            let [session, value] = numbers::<2>(line, at)?;
            Some(Request::Tidy { session, value })
        }
        Word::Abort => {
            let [session] = numbers::<1>(line, at)?;
            Some(Request::Abort { session })
        }
    }
}
