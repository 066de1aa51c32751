// A half of a split: what a bucket's state leaves to one of the two buckets that it becomes.
#![tactic(auto)]

ghost use Rattle.std.specs.Prelude.{◌≡◌};
ghost use Rattle.halves.specs.Halves.{half_of};

use bucket::{ARRAY_SIZE, BucketState};
use rules::first_bits;

// The half of a split whose accounts have the first d bits q.
pub fn half(state: BucketState, d: u64, q: u64) -> BucketState
    ensures { result ≡ half_of state d q }
{
    let old_accounts = state.accounts;
    let old_totals = state.totals;
    let n = state.size();
    let mut accounts = [0u64; ARRAY_SIZE];
    let mut totals = [0u64; ARRAY_SIZE];
    let mut kept: usize = 0;
    for i in 0..n {
        let a = old_accounts[i];
        if first_bits(d, a) == q {
            accounts[kept] = a;
            totals[kept] = old_totals[i];
            kept += 1;
        }
    }
    BucketState {
        accounts,
        totals,
        count: kept as u64,
        applied: 0,
        ..state
    }
}
