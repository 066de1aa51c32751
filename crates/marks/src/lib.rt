// The state step of the directory pass on the words. Where the machine reads one bucket's state and splits it in the
// working copy, this step looks at the current directory, at words of that bucket's record and at the entries of the
// accounts marked before in this round, and it only marks. Reply and meaning are the machine's all the same: step-means
// of crate simulation (docs/DECISIONS.md, 51).
#![tactic(auto)]

ghost use Rattle.std.specs.Prelude.{◌≡◌, ◌<◌};
ghost use Rattle.fields.specs.Regions.{worker_at};
ghost use Rattle.layout.specs.Shape.{Fits};
ghost use Rattle.marks.specs.StateStep.{found_before, marks, state_step_at};

use fields::{RECORD_COUNT, RECORD_DEPTH, SLOT_ACCOUNT, SLOT_KIND, SLOT_TICKET, WORKER_MARKS};
use interface::{KIND_NONE, Settings};
use layout::addresses::{put_worker_word, record_of, slot_word, worker_word};
use record::settled_ticket;
use rules::splittable;

// Whether a step of this round has found the bucket in the record at q before.
fn found_before(words: &[u64], g: Settings, w: usize, j: usize, q: usize) -> bool
    requires { Fits words.now g × ((w < g.workers) × (j < g.workers)) }
    ensures { result ≡ found_before words.now g (worker_at g.workers w) j q }
{
    let bits = worker_word(words, g, w, WORKER_MARKS);
    for i in (0..j).rev() {
        if (bits >> i) % 2 == 1
            && record_of(words, g, slot_word(words, g, w, i, SLOT_ACCOUNT)) == q
        {
            return true;
        }
    }
    false
}

// Whether worker w's state step for worker j marks a bucket.
fn marking(words: &[u64], g: Settings, w: usize, j: usize) -> bool
    requires { Fits words.now g × ((w < g.workers) × (j < g.workers)) }
    ensures { result ≡ marks words.now g (worker_at g.workers w) j }
{
    if slot_word(words, g, w, j, SLOT_KIND) == KIND_NONE {
        return false;
    }
    let q = record_of(words, g, slot_word(words, g, w, j, SLOT_ACCOUNT));
    let depth = memory::get(words, q + RECORD_DEPTH);
    splittable(g, depth, memory::get(words, q + RECORD_COUNT))
        && settled_ticket(words, g, q, j) < slot_word(words, g, w, j, SLOT_TICKET)
        && !found_before(words, g, w, j, q)
}

pub fn state_step(words: &mut [u64], g: Settings, w: usize, j: usize)
    requires { Fits words.old g × ((w < g.workers) × (j < g.workers)) }
    ensures { words.new ≡ state_step_at words.old g (worker_at g.workers w) j }
{
    if marking(words, g, w, j) {
        let x = worker_word(words, g, w, WORKER_MARKS);
        put_worker_word(words, g, w, WORKER_MARKS, x | 1 << j);
    }
}
