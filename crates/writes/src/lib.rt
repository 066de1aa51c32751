// The words of a bucket's record changed where they stand: an array's words moved up or down, the count and the applied
// bits, a settled ticket. What for: the head of crate own.
#![tactic(auto)]

ghost use Rattle.std.specs.Prelude.{◌≡◌, ◌∷◌, ◌+◌, ◌-◌, ◌≤◌, ◌<◌, length, set};
ghost use Rattle.fields.specs.Fields.{record_count, record_applied, settled_from, answers_from, posted_from, widest_record};
ghost use Rattle.lists.specs.Parts.{part, overlay};
ghost use Rattle.layout.specs.Shape.{Fits};

use arrays::{lower, raise};
use fields::{RECORD_ACCOUNTS, RECORD_APPLIED, RECORD_COUNT};
use interface::Settings;

// The word v put at position i of the c words at `at`, the later ones moved up.
pub fn raise_in(words: &mut [u64], at: usize, c: usize, i: usize, v: u64)
    requires { (at + c < length words.old) × (i ≤ c) }
    ensures { words.new
        ≡ overlay words.old (at + i) (v ∷ part words.old (at + i) (c - i)) }
{
    let end = at + c + 1;
    raise(&mut words[at..end], c, i, v);
}

// Position i taken out of the c words at `at`, the later ones moved down.
pub fn lower_in(words: &mut [u64], at: usize, c: usize, i: usize)
    requires { (at + c ≤ length words.old) × (i < c) }
    ensures { words.new
        ≡ overlay words.old (at + i) (part words.old (at + i + 1) (c - i - 1)) }
{
    let end = at + c;
    lower(&mut words[at..end], c, i);
}

// The count and the applied bits of the record at q.
pub fn put_first(words: &mut [u64], q: usize, count: u64, applied: u64)
    requires { q + widest_record ≤ length words.old }
    ensures { words.new
        ≡ set (set words.old (q + record_count) count) (q + record_applied) applied }
{
    memory::put(words, q + RECORD_COUNT, count);
    memory::put(words, q + RECORD_APPLIED, applied);
}

// Worker j's ticket, settled in the record at q with an answer's number and total.
pub fn settle(
    words: &mut [u64],
    g: Settings,
    q: usize,
    j: usize,
    ticket: u64,
    answer: u64,
    total: u64,
)
    requires { Fits words.old g × ((j < g.workers) × (q + widest_record ≤ length words.old)) }
    ensures { words.new
        ≡ set (set (set words.old (settled_from q g.capacity + j) ticket)
        (answers_from q g.capacity g.workers + j) answer)
        (posted_from q g.capacity g.workers + j) total }
{
    let b = g.capacity as usize;
    let n = g.workers as usize;
    let at = q + RECORD_ACCOUNTS + b + b;
    memory::put(words, at + j, ticket);
    memory::put(words, at + n + j, answer);
    memory::put(words, at + n + n + j, total);
}
