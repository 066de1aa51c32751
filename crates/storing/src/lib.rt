// A bucket's state, stored in its record in the lent words. The contract is an equality with a definition of specs/; an
// index that a `requires` bounds is not tested again.
#![tactic(auto)]

ghost use Rattle.std.specs.Prelude.{◌≡◌, ◌+◌, ◌≤◌, length};
ghost use Rattle.interface.specs.Limits.{greatest_workers, greatest_capacity};
ghost use Rattle.fields.specs.Fields.{widest_record};
ghost use Rattle.storing.specs.Stores.{stored_state};

use bucket::BucketState;
use fields::{RECORD_ACCOUNTS, RECORD_APPLIED, RECORD_COUNT};
use memory::least;

// The state s, written into the record at q.
pub fn store_state(words: &mut [u64], q: usize, b: usize, n: usize, s: BucketState)
    requires { (q + widest_record ≤ length words.old) × ((b ≤ greatest_capacity) × (n ≤ greatest_workers)) }
    ensures { words.new ≡ stored_state words.old q b n s }
{
    let c = least(s.count, b);
    words[q + RECORD_COUNT] = c as u64;
    words[q + RECORD_APPLIED] = s.applied;
    let accounts = q + RECORD_ACCOUNTS;
    let totals = accounts + b;
    for i in 0..c {
        words[accounts + i] = s.accounts[i];
        words[totals + i] = s.totals[i];
    }
    let settled = totals + b;
    let answers = settled + n;
    let posted = answers + n;
    for j in 0..n {
        words[settled + j] = s.settled[j];
        words[answers + j] = s.answers[j];
        words[posted + j] = s.posted[j];
    }
}
