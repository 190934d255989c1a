// An answer written as a line.
ghost use Rattle.std.specs.Prelude.{◌≤◌, length};
ghost use Rattle.rules.specs.Calls.{value};
ghost use Rattle.writing.specs.Wrote.{Answered};
ghost use Rattle.history.specs.Read.{standing_of};
ghost use Rattle.outcomes.specs.Said.{said, numbers_of};
ghost use Rattle.lines.specs.Line.{PutLine};
ghost use Rattle.lines.specs.Turn.{heard_from};

use outcomes::Answer;
use tables::{Refusal, Value};

// What read answers.
fn put_standing(out: &mut [u8], found: Option<Value>) -> usize
    requires { 13 ≤ length out.old }
    ensures { Answered out.old (value (standing_of found)) out.new result 13 }
{
    match found {
        Some(v) => writing::put_ok_one(out, v.0),
        None => writing::put_absent(out),
    }
}

// An accepted call's answer; a query's rows are those of the words at its place.
fn put_accepted<'a>(out: &mut [u8], answer: Answer, words: &'a [u64], scratch: &'a [u64]) -> usize
    requires { 10275 ≤ length out.old }
    ensures { Answered out.old (heard_from words.now scratch.now (numbers_of answer))
        out.new result 10275 }
{
    match answer {
        Answer::Count(n) => writing::put_ok_one(out, n),
        Answer::At(s, n) => writing::put_ok_two(out, s.0, n.0),
        Answer::Read(found) => put_standing(out, found),
        Answer::Listed(flips, due, place) => {
            let vector = reading::picked(words, scratch, place);
            writing::put_queried(out, flips, due, vector)
        }
    }
}

// An answer, or why there is none.
fn put_answer<'a>(
    out: &mut [u8],
    answer: Result<Answer, Refusal>,
    words: &'a [u64],
    scratch: &'a [u64],
) -> usize
    requires { 10275 ≤ length out.old }
    ensures { Answered out.old (heard_from words.now scratch.now (said answer))
        out.new result 10275 }
{
    match answer {
        Ok(accepted) => put_accepted(out, accepted, words, scratch),
        Err(why) => writing::put_no(out, u32::from(why)),
    }
}

// An answer and a newline.
pub fn put_line<'a>(
    out: &mut [u8],
    answer: Result<Answer, Refusal>,
    words: &'a [u64],
    scratch: &'a [u64],
) -> usize
    requires { 10276 ≤ length out.old }
    ensures { PutLine out.old (heard_from words.now scratch.now (said answer))
        out.new result }
{
    let n = put_answer(out, answer, words, scratch);
    writing::put_end(out, n)
}
