// Replies and the lines of a listing, printed into a caller's buffer from an index on: the whole text, or nothing where
// it has no room. Each function answers how many bytes it wrote. Depends on printers and on interface's answers.
// Kept beside `Display`, as printers are.
#![tactic(auto)]

ghost use Rattle.std.specs.Prelude.{[], ◌∷◌, ◌++◌};
ghost use Rattle.decimals.specs.Decimals.{decimal, signed_decimal};
ghost use Rattle.printers.specs.Written.{Wrote};
ghost use Rattle.replies.specs.Printed.{printed_line, printed_reply, printed_row, printed_end, printed_answer};

use decimals::{signed, unsigned};
use interface::{Answer, Completion};
use printers::{print_counted, print_pair, print_word};

// What a line is met with, but for a listing, which is printed by its rows and its end.
#[derive(Clone, Copy)]
pub enum Reply {
    Ok,
    Refused(u64),
    Moved(u64),
    Answered(Completion),
    Unread,
}

// The line of a reply.
pub fn print_reply(out: &mut [u8], at: usize, reply: Reply) -> usize
    ensures { Wrote out.old at (printed_reply reply) result out.new }
{
    match reply {
        Reply::Ok => print_word(out, at, b"ok\n"),
        Reply::Refused(number) => print_counted(out, at, b"refused ", number),
        Reply::Moved(steps) => print_counted(out, at, b"moved ", steps),
        Reply::Answered(end) => print_answer(out, at, end),
        Reply::Unread => print_word(out, at, b"unread\n"),
    }
}

// A row of a listing: `account total`.
pub fn print_row(out: &mut [u8], at: usize, account: u32, total: i64) -> usize
    ensures { Wrote out.old at (printed_row account total) result out.new }
{
    print_pair(out, at, b"", unsigned(account as u64), signed(total))
}

// The last line of a listing: `end count`.
pub fn print_end(out: &mut [u8], at: usize, count: u64) -> usize
    ensures { Wrote out.old at (printed_end count) result out.new }
{
    print_counted(out, at, b"end ", count)
}

fn print_answer(out: &mut [u8], at: usize, end: Completion) -> usize
    ensures { Wrote out.old at (printed_answer end.answer end.steps) result out.new }
{
    let answer = end.answer;
    match answer {
        Answer::Added => print_counted(out, at, b"answered added ", end.steps),
        Answer::Replaced => print_counted(out, at, b"answered replaced ", end.steps),
        Answer::Removed => print_counted(out, at, b"answered removed ", end.steps),
        Answer::Absent => print_counted(out, at, b"answered absent ", end.steps),
        Answer::Found(total) => print_total(out, at, b"answered found ", total, end.steps),
        Answer::None => print_counted(out, at, b"answered none ", end.steps),
        Answer::Posted(total) => print_total(out, at, b"answered posted ", total, end.steps),
        Answer::Crowded => print_counted(out, at, b"answered crowded ", end.steps),
        Answer::Overrun => print_counted(out, at, b"answered overrun ", end.steps),
    }
}

// A word, with the space after it, the total of an answer and the steps.
fn print_total(out: &mut [u8], at: usize, word: &[u8], total: i64, steps: u64) -> usize
    ensures { Wrote out.old at
        (word.now ++ printed_line (signed_decimal total ∷ decimal steps ∷ [])) result out.new }
{
    print_pair(out, at, word, signed(total), unsigned(steps))
}
