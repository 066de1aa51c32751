// A field of an operation's line, read as a word: a number, a total, an answer's word. Rests on crate numerals.
ghost use Rattle.std.specs.Prelude.{◌+◌, ◌≤◌, ◌≡◌, Some};
ghost use Rattle.interface.specs.Numbers.{answer_number};
ghost use Rattle.interface.specs.declared.Answer.TheVariants.{Overrun};
ghost use Rattle.machine.specs.Choice.{when◌then◌else◌};
ghost use Rattle.commands.specs.Commands.{total_of};
ghost use Rattle.report.specs.Report.{answer_base};
ghost use Rattle.logs.specs.Same.{same_numbers};
ghost use Rattle.loglines.specs.Fields.{as_word, answer_named, field_word};

use commands::GREATEST_ACCOUNT;
use interface::{
    ANSWER_ABSENT, ANSWER_ADDED, ANSWER_CROWDED, ANSWER_FOUND, ANSWER_NONE, ANSWER_OVERRUN,
    ANSWER_POSTED, ANSWER_REMOVED, ANSWER_REPLACED,
};
use logs::{LOGGED_ACCOUNT, LOGGED_ANSWER, LOGGED_ANSWER_TOTAL, LOGGED_TOTAL};
use memory::word_of;
use numerals::{read_number, read_signed};
use report::ANSWER_BASE;

// As specs/Fields has it.
const GREATEST_WORD: u64 = u64::MAX;

// The word of the field at k, counted from 0.
pub fn read_field(k: usize, field: &[u8]) -> Option<u64>
    ensures { result ≡ field_word k field.now }
{
    match k {
        LOGGED_ACCOUNT => read_number(field, GREATEST_ACCOUNT),
        LOGGED_TOTAL | LOGGED_ANSWER_TOTAL => read_total(field),
        LOGGED_ANSWER => read_answer(field),
        _ => read_number(field, GREATEST_WORD),
    }
}

// A total, as a word of two's complement.
fn read_total(field: &[u8]) -> Option<u64>
    ensures { result ≡ as_word (total_of field.now) }
{
    let total = read_signed(field)?;
    Some(word_of(total))
}

// The number of the answer whose word the field is: the words from the last to the first.
fn read_answer(field: &[u8]) -> Option<u64>
    ensures { result ≡ answer_named field.now }
{
    let rest = None;
    let rest = answer_or(field, b"overrun", ANSWER_OVERRUN, rest);
    let rest = answer_or(field, b"crowded", ANSWER_CROWDED, rest);
    let rest = answer_or(field, b"posted", ANSWER_POSTED, rest);
    let rest = answer_or(field, b"none", ANSWER_NONE, rest);
    let rest = answer_or(field, b"found", ANSWER_FOUND, rest);
    let rest = answer_or(field, b"absent", ANSWER_ABSENT, rest);
    let rest = answer_or(field, b"removed", ANSWER_REMOVED, rest);
    let rest = answer_or(field, b"replaced", ANSWER_REPLACED, rest);
    answer_or(field, b"added", ANSWER_ADDED, rest)
}

// The number of an answer, where the field is its word, or else the rest.
fn answer_or(field: &[u8], word: &[u8], answer: u64, rest: Option<u64>) -> Option<u64>
    requires { answer ≤ answer_number Overrun }
    ensures { result ≡ when same_numbers field.now word.now then Some (answer_base + answer)
        else rest }
{
    if same(field, word) {
        return Some(ANSWER_BASE + answer);
    }
    rest
}

// Whether the bytes are the same.
fn same(field: &[u8], word: &[u8]) -> bool
    ensures { result ≡ same_numbers field.now word.now }
{
    field == word
}
