// Up to so many steps of one worker. Written twice for speed: the loop has the branches of `operation_step` again, so
// that no early step's answer is made and taken apart: this source compiled as Rust takes 1,540 instructions for an
// insert by `run` at n 1, and 2,058 through `operation_step` (docs/DECISIONS.md, 42).
#![tactic(auto)]

ghost use Rattle.std.specs.Prelude.{Ok, ◌≡◌, ◌≤◌, ◌<◌};
ghost use Rattle.layout.specs.Shape.{settings_of, Fits};
ghost use Rattle.runs.specs.Runs.{longest_run, run_in, run_words};

use early::early_step;
use fields::{HEADER_SETTINGS, STEPS_RANGE, WORKER_KIND, WORKER_STEPS};
use interface::{KIND_LOOKUP, KIND_NONE, Ran, Refusal, Stepped};
use layout::addresses::worker_at;
use layout::shape::{settings_of, strange_words};
use lookups::lookup_step;
use updates::update_step;

// No operation of an opened table takes as many steps.
const LONGEST_RUN: u64 = 256;

// Up to so many steps of worker w.
fn run_in(words: &mut [u64], x: u64, w: usize, most: u64) -> Ran
    requires { Fits words.old (settings_of x) × ((w < (settings_of x).workers) × (most ≤ longest_run)) }
    ensures { (words.new, Ok result) ≡ run_in words.old (settings_of x) w 0 most }
{
    let g = settings_of(x);
    let p = worker_at(g, w);
    for done in 0..most {
        let kind = memory::get(words, p + WORKER_KIND);
        if kind == KIND_NONE {
            return Ran::Moved(done);
        }
        let k = memory::get(words, p + WORKER_STEPS) % STEPS_RANGE;
        memory::put(words, p + WORKER_STEPS, k + 1);
        if kind == KIND_LOOKUP {
            match lookup_step(words, g, p, k) {
                Stepped::Moved => {}
                Stepped::Answered(c) => return Ran::Answered(c),
                Stepped::Refused(_) => return Ran::Moved(done),
            }
        } else if k < 2 * g.workers + 9 {
            early_step(words, x, w, k as usize);
        } else {
            match update_step(x, w, words, k) {
                Stepped::Moved => {}
                Stepped::Answered(c) => return Ran::Answered(c),
                Stepped::Refused(_) => return Ran::Moved(done),
            }
        }
    }
    Ran::Moved(most)
}

// Up to so many steps of a worker, ending early at an answer: checks 8, 3, 5.
pub fn run(words: &mut [u64], worker: u64, most: u64) -> Result<Ran, Refusal>
    ensures { (words.new, result) ≡ run_words words.old worker most }
{
    if strange_words(words) {
        return Err(Refusal::Strange);
    }
    let x = words[HEADER_SETTINGS];
    let g = settings_of(x);
    if g.workers <= worker {
        return Err(Refusal::Stranger);
    }
    let w = worker as usize;
    if memory::get(words, worker_at(g, w) + WORKER_KIND) == KIND_NONE {
        return Err(Refusal::Idle);
    }
    Ok(run_in(words, x, w, most.min(LONGEST_RUN)))
}
