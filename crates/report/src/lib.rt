// What does not fit into a returned number: words told at the start of a report, and an operation's end.
#![tactic(auto)]

ghost use Rattle.std.specs.Prelude.{◌≡◌, [], ◌∷◌};
ghost use Rattle.report.specs.Report.{ended_number, told, told_three, total_word, ended_report};

use interface::{Answer, Completion};

// Answers are this and their number, past every refusal's.
pub const ANSWER_BASE: u64 = 16;

// Words at the start of a report that has room for them.
fn tell_words(report: &mut [u64], words: &[u64])
    ensures { report.new ≡ told report.old words.now }
{
    if words.len() <= report.len() {
        report[..words.len()].copy_from_slice(words);
    }
}

// A word at the start of a report that has room for it.
pub fn tell_one(report: &mut [u64], first: u64)
    ensures { report.new ≡ told report.old (first ∷ []) }
{
    tell_words(report, &[first]);
}

// Three words at the start of a report, the first two where it has two places only.
pub fn tell(report: &mut [u64], first: u64, second: u64, third: u64)
    ensures { report.new ≡ told_three report.old first second third }
{
    if report.len() < 3 {
        tell_words(report, &[first, second]);
    } else {
        tell_words(report, &[first, second, third]);
    }
}

// The total of an answer, found's or posted's, as a word; 0 where it has none.
fn total_word(answer: Answer) -> u64
    ensures { result ≡ total_word answer }
{
    match answer {
        // Kept: two arms. One for both kinds gets no proof, by a bug that rattle reports of itself.
        Answer::Found(total) => memory::word_of(total),
        Answer::Posted(total) => memory::word_of(total),
        _ => 0,
    }
}

// An operation's end: its number, and its steps, total and check in the report.
pub fn ended(report: &mut [u64], c: Completion) -> u64
    ensures { (report.new ≡ ended_report report.old c) × (result ≡ ended_number c) }
{
    let answer = c.answer;
    tell(report, c.steps, total_word(answer), c.check);
    ANSWER_BASE + answer.number()
}
