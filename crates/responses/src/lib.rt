// A command carried out on the words, and its reply, or the listing, printed behind the used bytes of a buffer.
// Depends on table for the calls, on commands for what a line asks, and on outputs for what is printed.
#![tactic(auto)]

ghost use Rattle.std.specs.Prelude.{◌≡◌};
ghost use Rattle.outputs.specs.Outputs.{state_of};
ghost use Rattle.responses.specs.Responses.{responded, of_done, of_ran};
ghost use Rattle.responses.specs.Answers.{answered};

use commands::Command;
use interface::{KIND_DELETE, KIND_INSERT, KIND_LOOKUP, KIND_POST, Ran, Refusal};
use outputs::{put_reply, show};
use replies::Reply;

// Carries out the command that a line is, and prints what the line is met with; one that is none is unread.
#[tactic(auto, using(crate::proofs::Answering::answered_list, crate::proofs::Answering::answered_unread))]
pub fn answer(
    words: &mut [u64],
    accounts: &mut [u32],
    totals: &mut [i64],
    out: &mut [u8],
    used: usize,
    c: Option<Command>,
) -> usize
    ensures { state_of words.new accounts.new totals.new out.new result
        ≡ answered (state_of words.old accounts.old totals.old out.old used)
        c }
{
    let Some(c) = c else {
        return put_reply(out, used, Reply::Unread);
    };
    match c {
        Command::List => show(words, accounts, totals, out, used),
        c => put_reply(out, used, respond(words, Some(c))),
    }
}

// What a line is met with that is this command or none, for any words. A listing is no `Reply`: `answer` does not bring
// it here, and it would be unread.
pub fn respond(words: &mut [u64], c: Option<Command>) -> Reply
    ensures { (words.new, result) ≡ responded words.old c }
{
    let Some(c) = c else {
        return Reply::Unread;
    };
    match c {
        Command::Open(n, b, m) => of_done(table::open(words, n, b, m)),
        Command::Insert(w, account, total) => of_done(table::call(
            words,
            w,
            KIND_INSERT,
            account,
            total,
        )),
        Command::Delete(w, account) => of_done(table::call(words, w, KIND_DELETE, account, 0)),
        Command::Lookup(w, account) => of_done(table::call(words, w, KIND_LOOKUP, account, 0)),
        Command::Post(w, account, amount) => of_done(table::call(
            words, w, KIND_POST, account, amount,
        )),
        Command::Steps(w, k) => of_ran(table::run(words, w, k)),
        Command::List => Reply::Unread,
    }
}

// An opening's reply, or a call's.
fn of_done(done: Result<(), Refusal>) -> Reply
    ensures { result ≡ of_done done }
{
    match done {
        Ok(()) => Reply::Ok,
        Err(why) => Reply::Refused(why.number()),
    }
}

fn of_ran(ran: Result<Ran, Refusal>) -> Reply
    ensures { result ≡ of_ran ran }
{
    match ran {
        Ok(Ran::Moved(steps)) => Reply::Moved(steps),
        Ok(Ran::Answered(end)) => Reply::Answered(end),
        Err(why) => Reply::Refused(why.number()),
    }
}
