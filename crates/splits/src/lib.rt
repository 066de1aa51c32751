// A bucket split in place: its halves in spare records, which the directory then names.
#![tactic(auto)]

ghost use Rattle.std.specs.Prelude.{◌≡◌, ◌+◌, ◌≤◌, length};
ghost use Rattle.layout.specs.Shape.{Fits, Whole};
ghost use Rattle.fields.specs.Fields.{widest_record};
ghost use Rattle.splits.specs.Splits.{made_at, directed_at, half_at, deepened_at, split_at, split_while_at};

use bucket::BucketState;
use fields::{
    HEADER_DEPTH, HEADER_SPARE, RECORD_COUNT, RECORD_DEPTH, RECORD_NUMBER, RECORD_PREFIX,
    RECORD_TOGGLE,
};
use interface::Settings;
use layout::addresses::record_of;
use layout::shape::directory_start;
use rules::splittable;
use spares::{first_entry, record_start, spare};

// A new bucket of depth d and prefix q in the record at r.
fn make(words: &mut [u64], g: Settings, r: usize, d: u64, q: u64, s: BucketState)
    requires { Fits words.old g × (r + widest_record ≤ length words.old) }
    ensures { words.new ≡ made_at words.old g r d q s }
{
    memory::put(words, r + RECORD_TOGGLE, 0);
    memory::put(words, r + RECORD_DEPTH, d);
    memory::put(words, r + RECORD_PREFIX, q);
    memory::put(words, r + RECORD_NUMBER, 0);
    storing::store_state(words, r, g.capacity as usize, g.workers as usize, s);
}

// The directory's entries of a bucket of depth d and prefix q name the record at r.
fn direct(words: &mut [u64], g: Settings, d: u64, q: u64, r: usize)
    requires { Whole words.old g × (d ≤ g.depth) }
    ensures { words.new ≡ directed_at words.old g d q r }
{
    let from = directory_start(g) + first_entry(g, d, q);
    let width: usize = 1 << (g.depth - d);
    memory::fill(words, from, from + width, r as u64);
}

// One half of a split, in a spare record.
fn half(words: &mut [u64], g: Settings, d: u64, q: u64, s: BucketState)
    requires { Whole words.old g × (d ≤ g.depth) }
    ensures { words.new ≡ half_at words.old g d q s }
{
    let r = spare(words, g);
    let at = record_start(g, r);
    make(words, g, at, d, q, halves::half(s, d, q));
    memory::put(words, HEADER_SPARE, r as u64 + 1);
    direct(words, g, d, q, at);
}

// The directory's depth is d at least.
fn deepen(words: &mut [u64], d: u64)
    requires { widest_record ≤ length words.old }
    ensures { words.new ≡ deepened_at words.old d }
{
    if memory::get(words, HEADER_DEPTH) < d {
        memory::put(words, HEADER_DEPTH, d);
    }
}

// The bucket in the record at q becomes two.
fn split(words: &mut [u64], g: Settings, q: usize)
    requires { Whole words.old g × ((1 ≤ g.depth) × (q + widest_record ≤ length words.old)) }
    ensures { words.new ≡ split_at words.old g q }
{
    let d = memory::get(words, q + RECORD_DEPTH) % g.depth + 1;
    let prefix = 2 * (memory::get(words, q + RECORD_PREFIX) % (1 << (d - 1)));
    let s = record::load_state(words, q, g.capacity as usize, g.workers as usize);
    deepen(words, d);
    half(words, g, d, prefix, s);
    half(words, g, d, prefix + 1, s);
}

// The account's bucket split while it is full and below the greatest depth.
pub fn split_while(words: &mut [u64], g: Settings, account: u64)
    requires { Whole words.old g }
    ensures { words.new ≡ split_while_at words.old g account g.depth }
{
    for _ in 0..g.depth {
        let q = record_of(words, g, account);
        let depth = memory::get(words, q + RECORD_DEPTH);
        if !splittable(g, depth, memory::get(words, q + RECORD_COUNT)) {
            return;
        }
        split(words, g, q);
    }
}
