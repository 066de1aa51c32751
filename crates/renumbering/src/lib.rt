// Numbers of states and of the directory, used again: the least one that no worker has read.
#![tactic(auto)]

ghost use Rattle.std.specs.Prelude.{◌≡◌, ◌<◌};
ghost use Rattle.fields.specs.Fields.{worker_slots};
ghost use Rattle.layout.specs.Shape.{Fits};
ghost use Rattle.renumbering.specs.Numbers.{any_has, number_taken, fresh_number, fresh_directory};

use fields::{WORKER_DIRECTORY, WORKER_HELD, WORKER_STATE};
use interface::Settings;
use layout::addresses::worker_word;

// Whether word k of some worker's record is x.
pub fn any_has(words: &[u64], g: Settings, k: usize, x: u64) -> bool
    requires { Fits words.now g × (k < worker_slots) }
    ensures { result ≡ any_has words.now g.workers k x }
{
    (0..g.workers as usize).any(|j| worker_word(words, g, j, k) == x)
}

// Whether a worker that holds record q has read its state under number x.
fn number_taken(words: &[u64], g: Settings, q: usize, x: u64) -> bool
    requires { Fits words.now g }
    ensures { result ≡ number_taken words.now g.workers q x }
{
    (0..g.workers as usize).any(|j| {
        worker_word(words, g, j, WORKER_HELD) == q as u64
            && worker_word(words, g, j, WORKER_STATE) == x
    })
}

// The next number of record q's state.
pub fn fresh_number(words: &[u64], g: Settings, q: usize) -> u64
    requires { Fits words.now g }
    ensures { result ≡ fresh_number words.now g.workers q }
{
    (0..g.workers)
        .find(|x| !number_taken(words, g, q, *x))
        .unwrap_or(g.workers)
}

// The directory's next number: the least that no worker has read.
// Kept beside `fresh_number`: one function of both with the test as a closure would have more lines than the two.
pub fn fresh_directory(words: &[u64], g: Settings) -> u64
    requires { Fits words.now g }
    ensures { result ≡ fresh_directory words.now g.workers }
{
    (0..g.workers)
        .find(|x| !any_has(words, g, WORKER_DIRECTORY, *x))
        .unwrap_or(g.workers)
}
