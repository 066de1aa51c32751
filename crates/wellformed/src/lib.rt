// Whether words are a log: whole operations, 12 at most, each of them one, and any two apart and, of one worker, in
// turn: the field's well-formed history. Rests on the words of a log.
#![tactic(auto)]

ghost use Rattle.std.specs.Prelude.{◌≡◌, true, not, ◌≤◌, ◌<◌, eqb, ltb};
ghost use Rattle.machine.specs.Choice.{when◌then◌else◌, ◌and◌};
ghost use Rattle.logs.specs.Log.{all, apart, are_log, greatest_operations, in_turn, is_operation, logged_at};

use interface::{GREATEST_KIND, KIND_INSERT};
use logs::{
    GREATEST_OPERATIONS, LOGGED_ACCOUNT, LOGGED_CALL, LOGGED_END, LOGGED_KIND, LOGGED_WORKER,
    OPERATION_WORDS,
};
use memory::get_or;

// The least number of more than 32 bits: accounts are below it.
const ACCOUNTS: u64 = 4294967296;

// ---- one operation

// Whether the words at place i are an operation: its kind, its account, its end after its call.
fn operation(log: &[u64], i: usize) -> bool
    requires { i < greatest_operations }
    ensures { result ≡ is_operation (logged_at log.now i) }
{
    let at = i * OPERATION_WORDS;
    let kind = get_or(log, at + LOGGED_KIND);
    KIND_INSERT <= kind
        && kind <= GREATEST_KIND
        && get_or(log, at + LOGGED_ACCOUNT) < ACCOUNTS
        && get_or(log, at + LOGGED_CALL) < get_or(log, at + LOGGED_END)
}

// Whether the first n are operations.
fn operations(log: &[u64], n: usize) -> bool
    requires { n ≤ greatest_operations }
    ensures { result ≡ all n (λ i. is_operation (logged_at log.now i)) }
{
    (0..n).all(|i| operation(log, i))
}

// ---- two operations

// Whether the positions of two operations differ: call and end of one, called and ended of the other.
fn apart(call: u64, end: u64, called: u64, ended: u64) -> bool
    ensures { result ≡ not (eqb call called) and not (eqb call ended) and not (eqb end called)
        and not (eqb end ended) }
{
    call != called && call != ended && end != called && end != ended
}

// Whether two operations are not of one worker, or one of them ended before the other's call.
fn in_turn(worker: u64, call: u64, end: u64, other: u64, called: u64, ended: u64) -> bool
    ensures { result ≡ when eqb worker other then (when ltb end called then true else ltb ended call) else true }
{
    worker != other || ended < call || end < called
}

// Whether the operations at places j and i are apart and in turn.
fn pair(log: &[u64], j: usize, i: usize) -> bool
    requires { (j < greatest_operations) × (i < greatest_operations) }
    ensures { result ≡ apart (logged_at log.now j) (logged_at log.now i)
        and in_turn (logged_at log.now j) (logged_at log.now i) }
{
    let first = j * OPERATION_WORDS;
    let second = i * OPERATION_WORDS;
    let call = get_or(log, first + LOGGED_CALL);
    let end = get_or(log, first + LOGGED_END);
    let called = get_or(log, second + LOGGED_CALL);
    let ended = get_or(log, second + LOGGED_END);
    let worker = get_or(log, first + LOGGED_WORKER);
    let other = get_or(log, second + LOGGED_WORKER);
    apart(call, end, called, ended) && in_turn(worker, call, end, other, called, ended)
}

// Whether the operation at place i makes such a pair with each of a lower place.
fn pairs(log: &[u64], i: usize) -> bool
    requires { i < greatest_operations }
    ensures { result ≡ all i (λ j. apart (logged_at log.now j) (logged_at log.now i)
        and in_turn (logged_at log.now j) (logged_at log.now i)) }
{
    (0..i).all(|j| pair(log, j, i))
}

// Whether each of the first n operations does.
fn all_pairs(log: &[u64], n: usize) -> bool
    requires { n ≤ greatest_operations }
    ensures { result ≡ all n (λ i. all i (λ j. apart (logged_at log.now j) (logged_at log.now i)
        and in_turn (logged_at log.now j) (logged_at log.now i))) }
{
    (0..n).all(|i| pairs(log, i))
}

// ---- logs

// Whether the words are a log.
pub fn is_log(log: &[u64]) -> bool
    ensures { result ≡ are_log log.now }
{
    let len = log.len();
    let n = len / OPERATION_WORDS;
    len % OPERATION_WORDS == 0
        && n <= GREATEST_OPERATIONS
        && operations(log, n)
        && all_pairs(log, n)
}
