// A step of an update: the step that its plan names, and the check.
#![tactic(auto)]

ghost use Rattle.std.specs.Prelude.{◌≡◌, ◌<◌};
ghost use Rattle.fields.specs.Fields.{steps_range};
ghost use Rattle.layout.specs.Shape.{settings_of, Fits};
ghost use Rattle.updates.specs.Updates.{check_step, update_step};

use calls::finish;
use directory::swap_directory;
use ends::{answer_of, completed};
use fields::WORKER_TICKET;
use interface::{Settings, Stepped};
use layout::addresses::{held_by, worker_at};
use layout::shape::settings_of;
use phases::{Phase, check_number, phase_of};
use record::{settled_answer, settled_ticket, settled_total};

// The second step of a check: the answer that is settled, with its total, or the operation goes on.
fn check(words: &mut [u64], g: Settings, w: usize, k: u64) -> Stepped
    requires { Fits words.old g × ((w < g.workers) × (k < steps_range)) }
    ensures { (words.new, result) ≡ check_step words.old g w k }
{
    let q = held_by(words, g, w);
    let p = worker_at(g, w);
    if settled_ticket(words, g, q, w) < memory::get(words, p + WORKER_TICKET) {
        return Stepped::Moved;
    }
    let answer = answer_of(
        settled_answer(words, g, q, w),
        settled_total(words, g, q, w),
    );
    finish(words, p);
    Stepped::Answered(completed(answer, k, check_number(k, g.workers)))
}

// An update's step, after k own steps, by the plan. The words do not stand first, so that what the caller has at hand
// for `early_step` keeps its registers (docs/DECISIONS.md, 66).
pub fn update_step(x: u64, w: usize, words: &mut [u64], k: u64) -> Stepped
    requires { Fits words.old (settings_of x) × ((w < (settings_of x).workers) × (k < steps_range)) }
    ensures { (words.new, result) ≡ update_step words.old (settings_of x) w k }
{
    let g = settings_of(x);
    match phase_of(k as usize, g.workers as usize) {
        Phase::Announce => engine::announce(words, g, w),
        Phase::ReadDirectory => engine::read_directory(words, g, w),
        Phase::Flip => engine::flip(words, g, w),
        Phase::ReadState => engine::read_state(words, g, w),
        Phase::ReadToggle => engine::read_toggle(words, g, w),
        Phase::ReadSlot(j) => engine::read_slot(words, g, w, j),
        Phase::Swap => swaps::swap(words, g, w),
        Phase::Check => return check(words, g, w, k),
        Phase::CopyDirectory => engine::copy_directory(words, g, w),
        Phase::StateStep(j) => marks::state_step(words, g, w, j),
        Phase::SwapDirectory => swap_directory(words, g, w),
    }
    Stepped::Moved
}
