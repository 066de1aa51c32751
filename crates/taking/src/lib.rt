// The updates that a directory swap takes: which are due at a marked bucket, and each carried out after the splits that
// it needs. A bucket's contents are read here and not at the state step (docs/DECISIONS.md, 51).
#![tactic(auto)]

ghost use Rattle.std.specs.Prelude.{◌≡◌, ◌+◌, ◌≤◌, ◌<◌, length};
ghost use Rattle.layout.specs.Shape.{Fits, Whole};
ghost use Rattle.fields.specs.Fields.{widest_record};
ghost use Rattle.fields.specs.Regions.{worker_at};
ghost use Rattle.taking.specs.Taking.{carried_at, taken_at, due_at, dues_at, taken_all};

use fields::{RECORD_COUNT, RECORD_DEPTH, RECORD_PREFIX, SLOT_ACCOUNT, SLOT_KIND, SLOT_TICKET};
use interface::{KIND_NONE, Settings};
use layout::addresses::{record_of, slot_read, slot_word};
use record::settled_ticket;
use rules::{first_bits, holds_back};
use splits::split_while;

// Worker i's update, as worker w has read it, carried out in the record at q.
fn carry(words: &mut [u64], g: Settings, w: usize, i: usize, q: usize)
    requires { Fits words.old g
        × ((w < g.workers) × ((i < g.workers) × (q + widest_record ≤ length words.old))) }
    ensures { words.new ≡ carried_at words.old g (worker_at g.workers w) i q }
{
    let n = g.workers as usize;
    let b = g.capacity as usize;
    let s = record::load_state(words, q, b, n);
    let u = slot_read(words, g, w, i);
    storing::store_state(words, q, b, n, rounds::carry(s, g, i, u));
}

// Worker i's update taken: splits first, then carried out unless its bucket holds it back.
fn take(words: &mut [u64], g: Settings, w: usize, i: usize)
    requires { Whole words.old g × ((w < g.workers) × (i < g.workers)) }
    ensures { words.new ≡ taken_at words.old g (worker_at g.workers w) i }
{
    split_while(words, g, slot_word(words, g, w, i, SLOT_ACCOUNT));
    let q = record_of(words, g, slot_word(words, g, w, i, SLOT_ACCOUNT));
    let depth = memory::get(words, q + RECORD_DEPTH);
    if !holds_back(g, depth, memory::get(words, q + RECORD_COUNT)) {
        carry(words, g, w, i, q);
    }
}

// Whether worker i's update, as worker w has read it, belongs to the bucket in the record at q and is unsettled there.
fn due(words: &[u64], g: Settings, w: usize, q: usize, i: usize) -> bool
    requires { Fits words.now g
        × ((w < g.workers) × ((i < g.workers) × (q + widest_record ≤ length words.now))) }
    ensures { result ≡ due_at words.now g (worker_at g.workers w) q i }
{
    slot_word(words, g, w, i, SLOT_KIND) != KIND_NONE
        && first_bits(
            memory::get(words, q + RECORD_DEPTH),
            slot_word(words, g, w, i, SLOT_ACCOUNT),
        ) == memory::get(words, q + RECORD_PREFIX)
        && settled_ticket(words, g, q, i) < slot_word(words, g, w, i, SLOT_TICKET)
}

// The workers whose update is due there, as bits.
pub fn dues(words: &[u64], g: Settings, w: usize, q: usize) -> u64
    requires { Fits words.now g × ((w < g.workers) × (q + widest_record ≤ length words.now)) }
    ensures { result ≡ dues_at words.now g (worker_at g.workers w) q g.workers }
{
    let mut bits: u64 = 0;
    for i in 0..g.workers as usize {
        if due(words, g, w, q, i) {
            bits += 1 << i;
        }
    }
    bits
}

// The updates of these workers taken, in worker order.
pub fn take_all(words: &mut [u64], g: Settings, w: usize, bits: u64)
    requires { Whole words.old g × (w < g.workers) }
    ensures { words.new ≡ taken_all words.old g (worker_at g.workers w) bits g.workers }
{
    for i in 0..g.workers as usize {
        if (bits >> i) % 2 == 1 {
            take(words, g, w, i);
        }
    }
}
