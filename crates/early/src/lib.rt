// The steps before the first check, told by their number alone. Written twice for speed, beside the plan that tells
// every step (`phase_of` of crate phases), since most steps are such: this source compiled as Rust takes 2,035
// instructions for an insert at n 1 by single steps and 1,540 by `run`; without this crate 2,528 and 2,009
// (docs/DECISIONS.md, 42).
#![tactic(auto)]

ghost use Rattle.std.specs.Prelude.{◌≡◌, ◌+◌, ◌*◌, ◌≤◌, ◌<◌};
ghost use Rattle.interface.specs.declared.Stepped.{Stepped};
ghost use Rattle.layout.specs.Shape.{settings_of, Fits};
ghost use Rattle.updates.specs.Updates.{update_step};

use layout::shape::settings_of;
use phases::reduce;

// A step of the two rounds of worker w's first bucket pass, after k own steps. x is the first word, which keeps the
// settings: one word is passed in a register.
fn round_step(words: &mut [u64], x: u64, w: usize, k: usize)
    requires { Fits words.old (settings_of x)
        × ((w < (settings_of x).workers) × ((3 ≤ k) × (k < 2 * (settings_of x).workers + 9))) }
    ensures { (words.new, Stepped.Moved) ≡ update_step words.old (settings_of x) w k }
{
    let n = settings_of(x).workers as usize;
    match reduce(k - 3, n + 3) {
        0 => engine::read_state(words, settings_of(x), w),
        1 => engine::read_toggle(words, settings_of(x), w),
        j if j < n + 2 => engine::read_slot(words, settings_of(x), w, j - 2),
        _ => swaps::swap(words, settings_of(x), w),
    }
}

// A step before the first check, after k own steps.
pub fn early_step(words: &mut [u64], x: u64, w: usize, k: usize)
    requires { Fits words.old (settings_of x)
        × ((w < (settings_of x).workers) × (k < 2 * (settings_of x).workers + 9)) }
    ensures { (words.new, Stepped.Moved) ≡ update_step words.old (settings_of x) w k }
{
    match k {
        0 => engine::announce(words, settings_of(x), w),
        1 => engine::read_directory(words, settings_of(x), w),
        2 => engine::flip(words, settings_of(x), w),
        _ => round_step(words, x, w, k),
    }
}
