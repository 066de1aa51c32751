// The search for an order that explains a log: recursive over what is left, lowest place first, with two cuts. Rests on
// an operation replayed. Each contract is an equality with a definition.
#![tactic(auto, using(crate::proofs::StillLaws::still_tells))]

ghost use Rattle.std.specs.Prelude.{◌≡◌, eqb, leb, ◌*◌, ◌≤◌, ◌<◌, length};
ghost use Rattle.machine.specs.Choice.{◌and◌};
ghost use Rattle.logs.specs.Log.{operation_words, greatest_operations, word_at, logged_call, greatest_word};
ghost use Rattle.replay.specs.Replay.{still_at};
ghost use Rattle.searching.specs.Searching.{is_left, least_end, exchanged_in, attempt_in};
ghost use Rattle.searching.specs.Searching.{search_in, written_in, is_found};

use interface::{ANSWER_ABSENT, ANSWER_CROWDED, ANSWER_FOUND, ANSWER_NONE, ANSWER_OVERRUN};
use logs::{GREATEST_OPERATIONS, LOGGED_ANSWER, LOGGED_CALL, LOGGED_END};
use replay::{BALANCES, replay, word_at};
use report::ANSWER_BASE;

// The least end of what is left, where anything is.
fn least_end(log: &[u64], left: [u64; GREATEST_OPERATIONS]) -> u64
    ensures { result ≡ least_end log.now left greatest_operations }
{
    let mut limit = u64::MAX;
    for (j, &here) in left.iter().enumerate() {
        if here == 1 {
            limit = limit.min(word_at(log, j, LOGGED_END));
        }
    }
    limit
}

// Whether the answer logged at i leaves every table as it is.
fn still(log: &[u64], i: usize) -> bool
    requires { i < greatest_operations }
    ensures { result ≡ still_at log.now i }
{
    matches!(
        word_at(log, i, LOGGED_ANSWER).checked_sub(ANSWER_BASE),
        Some(ANSWER_FOUND | ANSWER_NONE | ANSWER_ABSENT | ANSWER_CROWDED | ANSWER_OVERRUN)
    )
}

// Whether the operation at i, which came after the last one and left the balances `after`, could have come before it.
fn exchanged(
    log: &[u64],
    capacity: u64,
    depth: u64,
    before: [u64; BALANCES],
    last: usize,
    after: [u64; BALANCES],
    i: usize,
) -> bool
    requires { (length log.now ≤ greatest_operations * operation_words) × ((last < greatest_operations)
        × (i < greatest_operations)) }
    ensures { result ≡ exchanged_in log.now capacity depth before last after i }
{
    if word_at(log, last, LOGGED_END) < word_at(log, i, LOGGED_CALL) {
        return false;
    }
    let Some(between) = replay(log, capacity, depth, before, i) else {
        return false;
    };
    replay(log, capacity, depth, between, last) == Some(after)
}

// The operation at i on the balances, where it fits, and could not be exchanged with the last one. Not a part of
// `search`, whose every level would have room for its balances on the stack: 1,728 bytes a level, and 912 without.
#[inline(never)]
fn attempt(
    log: &[u64],
    capacity: u64,
    depth: u64,
    before: [u64; BALANCES],
    last: usize,
    balances: [u64; BALANCES],
    i: usize,
) -> Option<[u64; BALANCES]>
    requires { (length log.now ≤ greatest_operations * operation_words) × ((last < greatest_operations)
        × (i < greatest_operations)) }
    ensures { result ≡ attempt_in log.now capacity depth before last balances i }
{
    let next = replay(log, capacity, depth, balances, i)?;
    if i < last && exchanged(log, capacity, depth, before, last, next, i) {
        return None;
    }
    Some(next)
}

// Whether the operation at i may come next: it is left (1), and its call is no later than `limit`. Tested in the loop
// of `search`, so that a place which may not come next copies no balances: the longest search known took 8.2 seconds
// with the test inside `attempt`, and 3.3 with it here.
fn is_open(log: &[u64], left: u64, limit: u64, i: usize) -> bool
    requires { i < greatest_operations }
    ensures tested { result ≡ eqb left 1 and leb (word_at log.now i logged_call) limit }
    ensures word { word_at log.now i logged_call ≤ greatest_word }
{
    left == 1 && word_at(log, i, LOGGED_CALL) <= limit
}

// An order of the operations left, as many as `remaining`, written at the start of `order` where there is one. The
// balances `before` are those before the last operation.
pub fn search(
    log: &[u64],
    capacity: u64,
    depth: u64,
    before: [u64; BALANCES],
    last: usize,
    left: [u64; GREATEST_OPERATIONS],
    balances: [u64; BALANCES],
    order: &mut [u64],
    remaining: usize,
) -> bool
    requires { (length log.now ≤ greatest_operations * operation_words) × ((last < greatest_operations)
        × (remaining ≤ length order.old)) }
    ensures found { result
        ≡ is_found (search_in log.now capacity depth remaining before last (is_left left) balances) }
    ensures written { order.new
        ≡ written_in order.old
        (search_in log.now capacity depth remaining before last (is_left left) balances) }
{
    if remaining == 0 {
        return true;
    }
    let limit = least_end(log, left);
    for i in 0..GREATEST_OPERATIONS {
        if is_open(log, left[i], limit, i)
            && let Some(after) = attempt(log, capacity, depth, before, last, balances, i)
        {
            let mut rest = left;
            rest[i] = 0;
            let tail = &mut order[1..];
            let fewer = remaining - 1;
            if search(log, capacity, depth, balances, i, rest, after, tail, fewer) {
                order[0] = i as u64;
                return true;
            }
            if still(log, i) {
                return false;
            }
        }
    }
    false
}
