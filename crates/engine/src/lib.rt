// The steps of an update on the words that announce, flip and read, one function a kind; the bucket swap is in crate
// swaps, the state step of the directory pass in crate marks, the directory swap in crate directory, the check in crate
// updates. Announcing, the flip and the reads of the toggle and of a slot touch the words of the machine's one cell.
// The others look elsewhere than the machine does: a directory read at the own account's entry alone, at the
// directory's number alone for a round of the directory pass; a state read at the state's number alone, while the
// contents are read by the bucket swap that finds the number unchanged. Replies and meaning are the machine's all the
// same: step-means of crate simulation (docs/DECISIONS.md, 51).
#![tactic(auto)]

ghost use Rattle.std.specs.Prelude.{◌≡◌, ◌<◌};
ghost use Rattle.fields.specs.Regions.{worker_at};
ghost use Rattle.layout.specs.Shape.{Fits};
ghost use Rattle.layout.specs.Addresses.{held_by, bucket_read_at};
ghost use Rattle.engine.specs.Engine.{announced_at, slot_read_at, flipped_at, state_read_at, toggle_read_at, directory_read_at};

use fields::{
    HEADER_NUMBER, HEADER_SIZE, RECORD_NUMBER, RECORD_TOGGLE, SLOT_SIZE, WORKER_ACCOUNT,
    WORKER_DIRECTORY, WORKER_HELD, WORKER_MARKS, WORKER_SLOTS, WORKER_STATE, WORKER_TOGGLE,
};
use interface::Settings;
use layout::addresses::{held_by, held_word, put_worker_word, record_of, worker_at, worker_word};
use rules::flip_bit;

pub fn announce(words: &mut [u64], g: Settings, w: usize)
    requires { Fits words.old g × (w < g.workers) }
    ensures { words.new ≡ announced_at words.old (worker_at g.workers w) w }
{
    memory::copy(
        words,
        worker_at(g, w),
        HEADER_SIZE + SLOT_SIZE * w,
        SLOT_SIZE,
    );
}

pub fn read_slot(words: &mut [u64], g: Settings, w: usize, j: usize)
    requires { Fits words.old g × ((w < g.workers) × (j < g.workers)) }
    ensures { words.new ≡ slot_read_at words.old (worker_at g.workers w) j }
{
    memory::copy(
        words,
        HEADER_SIZE + SLOT_SIZE * j,
        worker_at(g, w) + WORKER_SLOTS + SLOT_SIZE * j,
        SLOT_SIZE,
    );
}

pub fn read_directory(words: &mut [u64], g: Settings, w: usize)
    requires { Fits words.old g × (w < g.workers) }
    ensures { words.new ≡ bucket_read_at words.old g (worker_at g.workers w) }
{
    let q = record_of(words, g, worker_word(words, g, w, WORKER_ACCOUNT));
    put_worker_word(words, g, w, WORKER_HELD, q as u64);
}

pub fn flip(words: &mut [u64], g: Settings, w: usize)
    requires { Fits words.old g × (w < g.workers) }
    ensures { words.new
        ≡ flipped_at words.old (held_by words.old (worker_at g.workers w)) w }
{
    let q = held_by(words, g, w);
    memory::put(
        words,
        q + RECORD_TOGGLE,
        flip_bit(memory::get(words, q + RECORD_TOGGLE), w),
    );
}

pub fn read_state(words: &mut [u64], g: Settings, w: usize)
    requires { Fits words.old g × (w < g.workers) }
    ensures { words.new
        ≡ state_read_at words.old (worker_at g.workers w)
        (held_by words.old (worker_at g.workers w)) }
{
    put_worker_word(
        words,
        g,
        w,
        WORKER_STATE,
        held_word(words, g, w, RECORD_NUMBER),
    );
}

pub fn read_toggle(words: &mut [u64], g: Settings, w: usize)
    requires { Fits words.old g × (w < g.workers) }
    ensures { words.new
        ≡ toggle_read_at words.old (worker_at g.workers w)
        (held_by words.old (worker_at g.workers w)) }
{
    put_worker_word(
        words,
        g,
        w,
        WORKER_TOGGLE,
        held_word(words, g, w, RECORD_TOGGLE),
    );
}

pub fn copy_directory(words: &mut [u64], g: Settings, w: usize)
    requires { Fits words.old g × (w < g.workers) }
    ensures { words.new ≡ directory_read_at words.old (worker_at g.workers w) }
{
    put_worker_word(
        words,
        g,
        w,
        WORKER_DIRECTORY,
        memory::get(words, HEADER_NUMBER),
    );
    put_worker_word(words, g, w, WORKER_MARKS, 0);
}
