// An operation's step: a lookup's, an early one of an update, or one by its plan.
ghost use Rattle.std.specs.Prelude.{◌≡◌, ◌+◌, ◌<◌, ◌%◌};
ghost use Rattle.fields.specs.Fields.{worker_kind, worker_steps, steps_range};
ghost use Rattle.fields.specs.Regions.{worker_at};
ghost use Rattle.layout.specs.Shape.{word, settings_of, Fits};
ghost use Rattle.updates.specs.Updates.{operation_at};

use early::early_step;
use fields::{STEPS_RANGE, WORKER_STEPS};
use interface::{KIND_LOOKUP, Stepped};
use layout::shape::settings_of;
use lookups::lookup_step;
use updates::update_step;

// One step of worker w's operation, whose words are at p: its count goes up first; what is no lookup is an update.
pub fn operation_step(words: &mut [u64], x: u64, w: usize, p: usize, kind: u64) -> Stepped
    requires { Fits words.old (settings_of x)
        × ((w < (settings_of x).workers)
        × ((p ≡ worker_at (settings_of x).workers w) × (kind ≡ word words.old (p + worker_kind)))) }
    ensures { (words.new, result)
        ≡ operation_at words.old (settings_of x) p w
        (word words.old (p + worker_steps) % steps_range) }
{
    let k = memory::get(words, p + WORKER_STEPS) % STEPS_RANGE;
    memory::put(words, p + WORKER_STEPS, k + 1);
    if kind == KIND_LOOKUP {
        return lookup_step(words, settings_of(x), p, k);
    }
    if k < 2 * settings_of(x).workers + 9 {
        early_step(words, x, w, k as usize);
        return Stepped::Moved;
    }
    update_step(x, w, words, k)
}
