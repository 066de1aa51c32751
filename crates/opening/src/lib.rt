// The words needed for settings, and opening.
#![tactic(auto)]

ghost use Rattle.std.specs.Prelude.{◌≡◌, [], ◌∷◌, ◌≤◌, length};
ghost use Rattle.interface.specs.Limits.{built, greatest_workers, greatest_capacity};
ghost use Rattle.fields.specs.Fields.{header_size, deepest};
ghost use Rattle.fields.specs.Regions.{words_needed};
ghost use Rattle.lists.specs.Parts.{overlay};
ghost use Rattle.layout.specs.Shape.{first_word};
ghost use Rattle.opening.specs.Opening.{needed_for, fresh_words, open_words};

use fields::{CAPACITY_UNIT, DEPTH_UNIT, HEADER_SPARE, MARK, MARK_UNIT};
use interface::{Refusal, Settings};
use layout::shape::directory_start;
use spares::needed;

// How many words a table of these settings needs, or refusal 1.
pub fn words_needed(workers: u64, capacity: u64, depth: u64) -> Result<u64, Refusal>
    ensures { result ≡ needed_for (built workers capacity depth) }
{
    let s = Settings::new(workers, capacity, depth)?;
    Ok(needed(s) as u64)
}

// The first word of a table of these settings: the mark, and the settings below it.
fn first_word(s: Settings) -> u64
    requires { (1 ≤ s.workers) × ((s.workers ≤ greatest_workers)
        × ((1 ≤ s.capacity) × ((s.capacity ≤ greatest_capacity) × (s.depth ≤ deepest)))) }
    ensures { result ≡ first_word s }
{
    MARK * MARK_UNIT + (s.workers - 1) + CAPACITY_UNIT * (s.capacity - 1) + DEPTH_UNIT * s.depth
}

// The header: the mark with the settings, the words needed, depth, number and the next spare record.
fn header(words: &mut [u64], first: u64, all: u64)
    requires { header_size ≤ length words.old }
    ensures { words.new ≡ overlay words.old 0 (first ∷ all ∷ 0 ∷ 0 ∷ 1 ∷ []) }
{
    words[..=HEADER_SPARE].copy_from_slice(&[first, all, 0, 0, 1]);
}

// The header, empty slots, idle workers, a directory whose entries all name the first record, empty records.
fn fresh(words: &mut [u64], s: Settings)
    requires { (1 ≤ s.workers) × ((s.workers ≤ greatest_workers)
        × ((1 ≤ s.capacity) × ((s.capacity ≤ greatest_capacity)
        × ((s.depth ≤ deepest) × (words_needed s ≤ length words.old))))) }
    ensures { words.new ≡ overlay words.old 0 (fresh_words s) }
{
    let start = directory_start(s);
    let records = start + (1 << s.depth);
    let all = needed(s);
    header(words, first_word(s), all as u64);
    memory::fill(words, HEADER_SPARE + 1, start, 0);
    memory::fill(words, start, records, records as u64);
    memory::fill(words, records, all, 0);
}

// A fresh table, whatever the words held.
pub fn open(words: &mut [u64], workers: u64, capacity: u64, depth: u64) -> Result<(), Refusal>
    ensures { (words.new, result) ≡ open_words words.old workers capacity depth }
{
    let s = Settings::new(workers, capacity, depth)?;
    if words.len() < needed(s) {
        return Err(Refusal::Short);
    }
    fresh(words, s);
    Ok(())
}
