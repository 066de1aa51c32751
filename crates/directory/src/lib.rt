// The directory swap: the marked buckets are looked at again and resolved, and the directory gets a fresh number.
#![tactic(auto)]

ghost use Rattle.std.specs.Prelude.{◌≡◌, ◌<◌};
ghost use Rattle.layout.specs.Shape.{Fits, Whole};
ghost use Rattle.fields.specs.Regions.{worker_at};
ghost use Rattle.directory.specs.Directory.{resolved_at, nothing_to_split, redirected_at};

use fields::{HEADER_NUMBER, SLOT_ACCOUNT, WORKER_DIRECTORY, WORKER_MARKS};
use interface::Settings;
use layout::addresses::{record_of, slot_word, worker_word};
use renumbering::fresh_directory;
use spares::needed;
use taking::{dues, take_all};

// The buckets that worker w has marked, resolved in the order of their marks.
fn resolve(words: &mut [u64], g: Settings, w: usize)
    requires { Whole words.old g × (w < g.workers) }
    ensures { words.new ≡ resolved_at words.old g (worker_at g.workers w) g.workers }
{
    for j in 0..g.workers as usize {
        if (worker_word(words, g, w, WORKER_MARKS) >> j) % 2 == 1 {
            let q = record_of(words, g, slot_word(words, g, w, j, SLOT_ACCOUNT));
            let bits = dues(words, g, w, q);
            take_all(words, g, w, bits);
        }
    }
}

// Whether there is nothing to split.
fn nothing(words: &[u64], g: Settings, w: usize) -> bool
    requires { Fits words.now g × (w < g.workers) }
    ensures { result ≡ nothing_to_split words.now g (worker_at g.workers w) }
{
    worker_word(words, g, w, WORKER_MARKS) == 0 || words.len() < needed(g)
}

pub fn swap_directory(words: &mut [u64], g: Settings, w: usize)
    requires { Fits words.old g × (w < g.workers) }
    ensures { words.new ≡ redirected_at words.old g (worker_at g.workers w) }
{
    if worker_word(words, g, w, WORKER_DIRECTORY) != memory::get(words, HEADER_NUMBER) {
        return;
    }
    let x = fresh_directory(words, g);
    if !nothing(words, g, w) {
        resolve(words, g, w);
    }
    memory::put(words, HEADER_NUMBER, x);
}
