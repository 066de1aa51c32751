// Lent words: totals in words and back, one word or a run of words read and written, the lesser of two numbers. Each
// contract is an equality with a definition; an index that a `requires` bounds is not tested again.
#![tactic(auto)]

ghost use Rattle.std.specs.Prelude.{◌≡◌, ◌⊎◌, ◌+◌, ◌-◌, ◌≤◌, ◌<◌, length, get_or, set, replicate};
ghost use Rattle.std.specs.Int.{w64};
ghost use Rattle.std.proofs.Common.{of_z, to_z};
ghost use Rattle.lists.specs.Parts.{part, overlay};
ghost use Rattle.memory.specs.Words.{least};

// The word that keeps a total: its bits.
pub fn word_of(x: i64) -> u64
    ensures { result ≡ of_z w64 x }
{
    x.cast_unsigned()
}

// The total that a word keeps.
pub fn total_of(w: u64) -> i64
    ensures { result ≡ to_z w64 w }
{
    w.cast_signed()
}

// The word at i.
pub fn get(words: &[u64], i: usize) -> u64
    requires { i < length words.now }
    ensures { result ≡ get_or words.now i 0 }
{
    words[i]
}

// The word k past `at`. The address is taken first, so that several words of one record are read from it.
pub fn get_from(words: &[u64], at: usize, k: usize) -> u64
    requires { at + k < length words.now }
    ensures { result ≡ get_or words.now (at + k) 0 }
{
    get(&words[at..], k)
}

// The word at i, and 0 past the end.
pub fn get_or(words: &[u64], i: usize) -> u64
    ensures { result ≡ get_or words.now i 0 }
{
    words.get(i).copied().unwrap_or(0)
}

// Another word at i.
pub fn put(words: &mut [u64], i: usize, v: u64)
    requires { i < length words.old }
    ensures { words.new ≡ set words.old i v }
{
    words[i] = v;
}

// The k words at `from`, written at `to` too. The runs are apart, or the run read starts no earlier than the run
// written.
pub fn copy(words: &mut [u64], from: usize, to: usize, k: usize)
    requires { (from + k ≤ length words.old) × ((to + k ≤ length words.old) × ((from + k ≤ to) ⊎ (to ≤ from))) }
    ensures { words.new ≡ overlay words.old to (part words.old from k) }
{
    // Kept: a loop, for the few words of a slot: `copy_within` is 6 instructions more a slot, at every read of one.
    for i in 0..k {
        words[to + i] = words[from + i];
    }
}

// The word v at each index from `from` to `to`, the last not counted.
pub fn fill(words: &mut [u64], from: usize, to: usize, v: u64)
    requires { to ≤ length words.old }
    ensures { words.new ≡ overlay words.old from (replicate (to - from) v) }
{
    if from < to {
        words[from..to].fill(v);
    }
}

// A count of accounts, at most the capacity.
pub fn least(count: u64, capacity: usize) -> usize
    ensures { result ≡ least count capacity }
{
    capacity.min(count as usize)
}
