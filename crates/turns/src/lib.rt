// A whole step of one worker: the public call with its checks.
#![tactic(auto)]

ghost use Rattle.std.specs.Prelude.{◌≡◌};
ghost use Rattle.turns.specs.Turns.{step_words};

use crate::operations::operation_step;
use fields::{HEADER_SETTINGS, WORKER_KIND};
use interface::{KIND_NONE, Refusal, Stepped};
use layout::addresses::worker_at;
use layout::shape::{settings_of, strange_words};

mod operations;

// One step of a worker: checks 8, 3, 5.
pub fn step(words: &mut [u64], worker: u64) -> Stepped
    ensures { (words.new, result) ≡ step_words words.old worker }
{
    if strange_words(words) {
        return Stepped::Refused(Refusal::Strange);
    }
    let x = words[HEADER_SETTINGS];
    let g = settings_of(x);
    if g.workers <= worker {
        return Stepped::Refused(Refusal::Stranger);
    }
    let w = worker as usize;
    let p = worker_at(g, w);
    let kind = memory::get(words, p + WORKER_KIND);
    if kind == KIND_NONE {
        return Stepped::Refused(Refusal::Idle);
    }
    operation_step(words, x, w, p, kind)
}
