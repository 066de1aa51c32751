// An operation's end: its answer with its steps and its check; an update's answer by the number and the total that are
// stored of it.
#![tactic(auto)]

ghost use Rattle.std.specs.Prelude.{◌≡◌, ◌+◌, ◌<◌};
ghost use Rattle.fields.specs.Fields.{steps_range};
ghost use Rattle.rules.specs.Rules.{answer_of};

use interface::{
    ANSWER_ABSENT, ANSWER_ADDED, ANSWER_CROWDED, ANSWER_OVERRUN, ANSWER_POSTED, ANSWER_REMOVED,
    ANSWER_REPLACED, Answer, Completion,
};

// An answer, with the own steps of its operation, k before this one, and the check that gave it.
pub fn completed(answer: Answer, k: u64, check: u64) -> Completion
    requires { k < steps_range }
    ensures { result ≡ record { answer = answer; steps = k + 1; check = check } }
{
    Completion {
        answer,
        steps: k + 1,
        check,
    }
}

// Kept beside `TryFrom`: any number is one, as the definition has it.
// The answer that a stored number is, with the word of a total that counts for posted alone.
pub fn answer_of(number: u64, total: u64) -> Answer
    ensures { result ≡ answer_of number total }
{
    match number {
        ANSWER_ADDED => Answer::Added,
        ANSWER_REPLACED => Answer::Replaced,
        ANSWER_REMOVED => Answer::Removed,
        ANSWER_ABSENT => Answer::Absent,
        ANSWER_POSTED => Answer::Posted(memory::total_of(total)),
        ANSWER_CROWDED => Answer::Crowded,
        ANSWER_OVERRUN => Answer::Overrun,
        _ => Answer::None,
    }
}
