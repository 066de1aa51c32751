// Where a worker's words stand, single words read and written there, and which bucket record an account or a worker
// has.
ghost use Rattle.std.specs.Prelude.{◌≡◌, ◌+◌, ◌≤◌, ◌<◌, length, set};
ghost use Rattle.interface.specs.Limits.{greatest_workers};
ghost use Rattle.fields.specs.Fields.{slot_size, worker_slots, record_count, widest_record};
ghost use Rattle.fields.specs.Regions.{worker_at, read_at};
ghost use Rattle.rules.specs.Rules.{descriptor_in};
ghost use Rattle.memory.specs.Words.{least};
ghost use Rattle.layout.specs.Shape.{word, Fits};
ghost use Rattle.layout.specs.Addresses.{record_in, record_of, held_by};

use crate::shape::directory_start;
use fields::{HEADER_SIZE, RECORD_COUNT, SLOT_SIZE, WIDEST_RECORD, WORKER_HELD, WORKER_SLOTS};
use interface::Settings;
use rules::{Descriptor, first_bits};

// Where worker w's record begins.
pub fn worker_at(g: Settings, w: usize) -> usize
    requires { (g.workers ≤ greatest_workers) × (w ≤ greatest_workers) }
    ensures { result ≡ worker_at g.workers w }
{
    let n = g.workers as usize;
    HEADER_SIZE + SLOT_SIZE * n + w * (SLOT_SIZE * n + WORKER_SLOTS)
}

// Word k of worker w's record.
pub fn worker_word(words: &[u64], g: Settings, w: usize, k: usize) -> u64
    requires { Fits words.now g × ((w < g.workers) × (k < worker_slots)) }
    ensures { result ≡ word words.now (worker_at g.workers w + k) }
{
    memory::get_from(words, worker_at(g, w), k)
}

// Another word k in worker w's record.
pub fn put_worker_word(words: &mut [u64], g: Settings, w: usize, k: usize, v: u64)
    requires { Fits words.old g × ((w < g.workers) × (k < worker_slots)) }
    ensures { words.new ≡ set words.old (worker_at g.workers w + k) v }
{
    memory::put(words, worker_at(g, w) + k, v);
}

// Word k of the slot of worker j, as worker w has read it.
pub fn slot_word(words: &[u64], g: Settings, w: usize, j: usize, k: usize) -> u64
    requires { Fits words.now g × ((w < g.workers) × ((j < g.workers) × (k < slot_size))) }
    ensures { result ≡ word words.now (read_at (worker_at g.workers w) j + k) }
{
    memory::get_from(words, worker_at(g, w) + WORKER_SLOTS + SLOT_SIZE * j, k)
}

// The slot of worker j, as worker w has read it.
pub fn slot_read(words: &[u64], g: Settings, w: usize, j: usize) -> Descriptor
    requires { Fits words.now g × ((w < g.workers) × (j < g.workers)) }
    ensures { result ≡ descriptor_in words.now (read_at (worker_at g.workers w) j) }
{
    rules::descriptor_at(words, worker_at(g, w) + WORKER_SLOTS + SLOT_SIZE * j)
}

// A word that is to be a record's address, if a whole record fits there; else 0.
pub fn record_in(words: &[u64], q: u64) -> usize
    requires { widest_record ≤ length words.now }
    ensures { result ≡ record_in words.now q }
{
    let most = words.len() - WIDEST_RECORD;
    if q <= most as u64 { q as usize } else { 0 }
}

// The record of an account's bucket, by the directory.
pub fn record_of(words: &[u64], g: Settings, account: u64) -> usize
    requires { Fits words.now g }
    ensures { result ≡ record_of words.now g account }
{
    let e = directory_start(g) + first_bits(g.depth, account) as usize;
    record_in(words, memory::get_or(words, e))
}

// The record that worker w holds.
pub fn held_by(words: &[u64], g: Settings, w: usize) -> usize
    requires { Fits words.now g × (w < g.workers) }
    ensures { result ≡ held_by words.now (worker_at g.workers w) }
{
    record_in(words, worker_word(words, g, w, WORKER_HELD))
}

// Word k of the record that worker w holds.
pub fn held_word(words: &[u64], g: Settings, w: usize, k: usize) -> u64
    requires { Fits words.now g × ((w < g.workers) × (k < widest_record)) }
    ensures { result ≡ word words.now (held_by words.now (worker_at g.workers w) + k) }
{
    memory::get_from(words, held_by(words, g, w), k)
}

// How many accounts of the record at q are looked at.
pub fn size(words: &[u64], g: Settings, q: usize) -> usize
    requires { Fits words.now g × (q + widest_record ≤ length words.now) }
    ensures { result ≡ least (word words.now (q + record_count)) g.capacity }
{
    memory::least(memory::get(words, q + RECORD_COUNT), g.capacity as usize)
}
