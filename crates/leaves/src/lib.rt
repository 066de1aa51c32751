// The functions on a bucket record behind one function, for the comparison under bench/: a record's state is loaded,
// changed and stored. Crate leaves_c exports it to C.
#![tactic(auto)]

use arrays::Position;
use bucket::BucketState;
use fields::WIDEST_RECORD;
use interface::Settings;

// The operations that a number names. Kept as numbers: C names them so (crate leaves_c).
const SEARCH: u64 = 1;

const PUT: u64 = 2;

const REMOVE: u64 = 3;

const HALF: u64 = 4;

// A position as a number: twice its index, and 1 more where the account stands there.
fn position_number(position: Position) -> u64 {
    match position {
        Position::At(i) => 2 * i as u64 + 1,
        Position::Before(i) => 2 * i as u64,
    }
}

// The state changed in the way that a number names; any other number leaves it.
fn changed(state: BucketState, which: u64, account: u64, total: u64) -> BucketState {
    match which {
        PUT => state.put(state.search(account), account, total),
        REMOVE => state.remove(state.search(account)),
        HALF => halves::half(state, account, total),
        _ => state,
    }
}

// SEARCH searches the record at q; any other number stores the changed state at `to`. Nothing is done where a record
// does not fit.
pub fn leaf(
    words: &mut [u64],
    which: u64,
    q: usize,
    to: usize,
    b: usize,
    n: usize,
    account: u64,
    total: u64,
) -> u64 {
    if words.len() < WIDEST_RECORD {
        return 0;
    }
    let most = words.len() - WIDEST_RECORD;
    if most < q {
        return 0;
    }
    if most < to {
        return 0;
    }
    if Settings::GREATEST_CAPACITY < b as u64 {
        return 0;
    }
    if Settings::GREATEST_WORKERS < n as u64 {
        return 0;
    }
    let state = record::load_state(words, q, b, n);
    if which == SEARCH {
        return position_number(state.search(account));
    }
    storing::store_state(words, to, b, n, changed(state, which, account, total));
    0
}
