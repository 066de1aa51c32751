// The bucket records: where they are, how many words all need, which are in use, and the next spare one.
#![tactic(auto)]

ghost use Rattle.std.specs.Prelude.{◌≡◌, ◌+◌, ◌≤◌, ◌<◌, length};
ghost use Rattle.interface.specs.Limits.{greatest_workers, greatest_capacity};
ghost use Rattle.fields.specs.Fields.{deepest, widest_record};
ghost use Rattle.fields.specs.Regions.{record_start, pool_size, words_needed};
ghost use Rattle.layout.specs.Shape.{Fits, Whole};
ghost use Rattle.spares.specs.Records.{first_entry, current_at, used_at, spare_of};

use fields::{
    HEADER_SPARE, RECORD_ACCOUNTS, RECORD_DEPTH, RECORD_PREFIX, SPARE_RECORDS, SPARE_WORDS,
    WORKER_HELD,
};
use interface::Settings;
use layout::shape::directory_start;
use renumbering::any_has;

// How many bucket records there are.
fn pool(g: Settings) -> usize
    requires { (g.workers ≤ greatest_workers) × (g.depth ≤ deepest) }
    ensures { result ≡ pool_size g }
{
    (1 << g.depth) + g.workers as usize + SPARE_RECORDS
}

// Where record r begins.
pub fn record_start(g: Settings, r: usize) -> usize
    requires { (g.workers ≤ greatest_workers)
        × ((g.capacity ≤ greatest_capacity) × ((g.depth ≤ deepest) × (r ≤ pool_size g))) }
    ensures { result ≡ record_start g r }
{
    let n = g.workers as usize;
    let b = g.capacity as usize;
    directory_start(g) + (1 << g.depth) + r * (2 * b + 3 * n + RECORD_ACCOUNTS)
}

// The words that settings in range need.
pub fn needed(g: Settings) -> usize
    requires { (g.workers ≤ greatest_workers) × ((g.capacity ≤ greatest_capacity) × (g.depth ≤ deepest)) }
    ensures { result ≡ words_needed g }
{
    record_start(g, pool(g)) + SPARE_WORDS
}

// The first entry of a bucket of depth d and prefix q.
pub fn first_entry(g: Settings, d: u64, q: u64) -> usize
    requires { g.depth ≤ deepest }
    ensures { result ≡ first_entry g d q }
{
    let span: u64 = 1 << g.depth;
    let width: u64 = 1 << g.depth.saturating_sub(d);
    ((q % span) * width % span) as usize
}

// Whether the directory names the record at q at its bucket's first entry.
fn current(words: &[u64], g: Settings, q: usize) -> bool
    requires { Fits words.now g × (q + widest_record ≤ length words.now) }
    ensures { result ≡ current_at words.now g q }
{
    let e = directory_start(g)
        + first_entry(
            g,
            memory::get(words, q + RECORD_DEPTH),
            memory::get(words, q + RECORD_PREFIX),
        );
    memory::get_or(words, e) == q as u64
}

// Whether record r is current, or held by a worker.
fn used(words: &[u64], g: Settings, r: usize) -> bool
    requires { Whole words.now g × (r < pool_size g) }
    ensures { result ≡ used_at words.now g r }
{
    let q = record_start(g, r);
    current(words, g, q) || any_has(words, g, WORKER_HELD, q as u64)
}

// The next record to use.
pub fn spare(words: &[u64], g: Settings) -> usize
    requires { Whole words.now g }
    ensures { result ≡ spare_of words.now g }
{
    let all = pool(g);
    let mut r = (memory::get(words, HEADER_SPARE) % all as u64) as usize;
    for _k in 0..all {
        if !used(words, g, r) {
            return r;
        }
        r = if r + 1 < all { r + 1 } else { 0 };
    }
    r
}
