// A bucket's record in the lent words, read: its state loaded, and what is settled in it. Each contract is an equality
// with a definition of specs/; an index that a `requires` bounds is not tested again.
#![tactic(auto)]

ghost use Rattle.std.specs.Prelude.{◌≡◌, ◌+◌, ◌≤◌, ◌<◌, length};
ghost use Rattle.interface.specs.Limits.{greatest_workers, greatest_capacity};
ghost use Rattle.fields.specs.Fields.{widest_record};
ghost use Rattle.layout.specs.Shape.{Fits};
ghost use Rattle.record.specs.Loads.{loaded_state};
ghost use Rattle.record.specs.Bucket.{settled_ticket, settled_answer, settled_total};

use bucket::{ARRAY_SIZE, BucketState};
use fields::{RECORD_ACCOUNTS, RECORD_APPLIED, RECORD_COUNT};
use interface::Settings;
use memory::least;

// The state in the record at q. One bound serves every b and n.
pub fn load_state(words: &[u64], q: usize, b: usize, n: usize) -> BucketState
    requires { (q + widest_record ≤ length words.now) × ((b ≤ greatest_capacity) × (n ≤ greatest_workers)) }
    ensures { result ≡ loaded_state words.now q b n }
{
    let c = least(words[q + RECORD_COUNT], b);
    let zeros = [0u64; ARRAY_SIZE];
    let mut s = BucketState {
        accounts: zeros,
        totals: zeros,
        settled: zeros,
        answers: zeros,
        posted: zeros,
        count: c as u64,
        applied: words[q + RECORD_APPLIED],
    };
    let accounts = q + RECORD_ACCOUNTS;
    let totals = accounts + b;
    for i in 0..c {
        s.accounts[i] = words[accounts + i];
        s.totals[i] = words[totals + i];
    }
    let settled = totals + b;
    let answers = settled + n;
    let posted = answers + n;
    for j in 0..n {
        s.settled[j] = words[settled + j];
        s.answers[j] = words[answers + j];
        s.posted[j] = words[posted + j];
    }
    s
}

// Kept as three functions, this one and the next two: each is an address, and callers read which word they ask for.
// The ticket of worker j that is settled in the record at q.
pub fn settled_ticket(words: &[u64], g: Settings, q: usize, j: usize) -> u64
    requires { Fits words.now g × ((j < g.workers) × (q + widest_record ≤ length words.now)) }
    ensures { result ≡ settled_ticket words.now g q j }
{
    let b = g.capacity as usize;
    memory::get(words, q + RECORD_ACCOUNTS + b + b + j)
}

// The number of the answer with which that ticket was settled.
pub fn settled_answer(words: &[u64], g: Settings, q: usize, j: usize) -> u64
    requires { Fits words.now g × ((j < g.workers) × (q + widest_record ≤ length words.now)) }
    ensures { result ≡ settled_answer words.now g q j }
{
    let b = g.capacity as usize;
    memory::get(words, q + RECORD_ACCOUNTS + b + b + g.workers as usize + j)
}

// The word of the total that this answer has.
pub fn settled_total(words: &[u64], g: Settings, q: usize, j: usize) -> u64
    requires { Fits words.now g × ((j < g.workers) × (q + widest_record ≤ length words.now)) }
    ensures { result ≡ settled_total words.now g q j }
{
    let b = g.capacity as usize;
    let n = g.workers as usize;
    memory::get(words, q + RECORD_ACCOUNTS + b + b + n + n + j)
}
