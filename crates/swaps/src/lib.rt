// The bucket swap of an update on the words. Where the machine compares the state that was read, it compares the
// state's number; where that is unchanged it reads the contents of the record, now, and the numbers that the workers
// have read at this record, for a fresh one. Reply and meaning are the machine's all the same: step-means of crate
// simulation (docs/DECISIONS.md, 51).
#![tactic(auto)]

ghost use Rattle.std.specs.Prelude.{◌≡◌, ◌+◌, ◌≤◌, ◌<◌, length};
ghost use Rattle.fields.specs.Fields.{widest_record};
ghost use Rattle.fields.specs.Regions.{worker_at};
ghost use Rattle.layout.specs.Shape.{Fits};
ghost use Rattle.layout.specs.Addresses.{held_by};
ghost use Rattle.inplace.specs.InPlace.{round_at};
ghost use Rattle.swaps.specs.BucketSwap.{swapped_at};

use fields::{
    RECORD_APPLIED, RECORD_DEPTH, RECORD_NUMBER, SLOT_SIZE, WORKER_SLOTS, WORKER_STATE,
    WORKER_TOGGLE,
};
use interface::Settings;
use layout::addresses::{held_by, worker_at, worker_word};
use own::own_round;
use renumbering::fresh_number;
use rules::flip_bit;

// The state of the record at q after a round with what worker w has read. Where only its own bit differs, its own
// update is all that the round carries out.
fn round(words: &mut [u64], g: Settings, w: usize, q: usize)
    requires { Fits words.old g × ((w < g.workers) × (q + widest_record ≤ length words.old)) }
    ensures { words.new ≡ round_at words.old g (worker_at g.workers w) q }
{
    let toggle = worker_word(words, g, w, WORKER_TOGGLE);
    let applied = memory::get(words, q + RECORD_APPLIED);
    if toggle == applied {
        return;
    }
    if toggle == flip_bit(applied, w) {
        own_round(words, g, w, q, toggle);
    } else {
        let n = g.workers as usize;
        let b = g.capacity as usize;
        let s = record::load_state(words, q, b, n);
        let depth = memory::get(words, q + RECORD_DEPTH);
        let from = worker_at(g, w) + WORKER_SLOTS;
        let to = from + SLOT_SIZE * n;
        let t = rounds::round(s, &words[from..to], g, depth, toggle);
        storing::store_state(words, q, b, n, t);
    }
}

pub fn swap(words: &mut [u64], g: Settings, w: usize)
    requires { Fits words.old g × (w < g.workers) }
    ensures { words.new
        ≡ swapped_at words.old g (worker_at g.workers w)
        (held_by words.old (worker_at g.workers w)) }
{
    let q = held_by(words, g, w);
    if worker_word(words, g, w, WORKER_STATE) != memory::get(words, q + RECORD_NUMBER) {
        return;
    }
    let x = fresh_number(words, g, q);
    round(words, g, w, q);
    memory::put(words, q + RECORD_NUMBER, x);
}
