// A logged operation on the plain table, kept over the log's places: an account stands at the first place whose
// operation is about it, as 0, or as 1 and its total. Rests on the words of a log, and on the sums of totals.
#![tactic(auto)]

ghost use Rattle.std.specs.Prelude.{Some, ◌≡◌, Bool, false, ℕ, ◌*◌, ◌^◌, ◌≤◌, ◌<◌, length};
ghost use Rattle.std.specs.Int.{w64};
ghost use Rattle.std.proofs.Common.{to_z};
ghost use Rattle.interface.specs.Numbers.{kind_insert, kind_delete, kind_lookup, kind_post};
ghost use Rattle.logs.specs.Log.{word_at, logged_at, logged_kind, operation_words, greatest_operations, count_of};
ghost use Rattle.replay.specs.Balances.{first_place, agreeing, crowds_at, balance_of};
ghost use Rattle.replay.specs.Replay.{outcome_of, as_outcome, still_at, replayed};

use interface::{
    ANSWER_ABSENT, ANSWER_ADDED, ANSWER_CROWDED, ANSWER_FOUND, ANSWER_NONE, ANSWER_OVERRUN,
    ANSWER_POSTED, ANSWER_REMOVED, ANSWER_REPLACED, KIND_DELETE, KIND_INSERT, KIND_LOOKUP,
    KIND_POST,
};
use logs::{
    LOGGED_ACCOUNT, LOGGED_ANSWER, LOGGED_ANSWER_TOTAL, LOGGED_KIND, LOGGED_TOTAL, OPERATION_WORDS,
};
use memory::get_or;
use report::ANSWER_BASE;
use rules::first_bits;
use sums::sum_of;

// The words of a place.
const BALANCE_WORDS: usize = 2;

// Twice GREATEST_OPERATIONS.
pub const BALANCES: usize = 24;

// What an operation makes of its account's balance: nothing, as its answer says, or whether the account is there now
// and its total.
#[derive(Clone, Copy)]
pub enum Effect {
    Unchanged,
    Balance(u64, u64),
}

// ---- places

// A word of the operation at place i.
pub fn word_at(log: &[u64], i: usize, k: usize) -> u64
    requires { (i < 2 ^ 32) × (k < operation_words) }
    ensures { result ≡ word_at log.now i k }
{
    get_or(log, i * OPERATION_WORDS + k)
}

// The first place whose operation is about the account of that at place i.
fn first_place(log: &[u64], i: usize) -> usize
    requires { i < 2 ^ 32 }
    ensures { (result ≡ first_place log.now i) × (result ≤ i) }
{
    let account = word_at(log, i, LOGGED_ACCOUNT);
    for j in 0..i {
        if word_at(log, j, LOGGED_ACCOUNT) == account {
            return j;
        }
    }
    i
}

// ---- crowding

// How many accounts whose first bits these are stand in the balances.
fn agreeing(log: &[u64], depth: u64, bits: u64, balances: [u64; BALANCES]) -> u64
    requires { length log.now ≤ greatest_operations * operation_words }
    ensures { result ≡ agreeing log.now depth bits balances (count_of log.now) }
{
    let count = log.len() / OPERATION_WORDS;
    let mut found: u64 = 0;
    for j in 0..count {
        if balances[j * BALANCE_WORDS] != 0
            && first_bits(depth, word_at(log, j, LOGGED_ACCOUNT)) == bits
        {
            found += 1;
        }
    }
    found
}

// Whether there is no room for the account of the operation at place i.
fn crowds(log: &[u64], capacity: u64, depth: u64, balances: [u64; BALANCES], i: usize) -> bool
    requires { (length log.now ≤ greatest_operations * operation_words) × (i < 2 ^ 32) }
    ensures { result ≡ crowds_at log.now capacity depth balances i }
{
    let bits = first_bits(depth, word_at(log, i, LOGGED_ACCOUNT));
    capacity <= agreeing(log, depth, bits, balances)
}

// ---- one operation on its account's balance: its effect, where the answer is the one logged

// An insert, of the total logged.
fn inserted(log: &[u64], i: usize, crowded: bool, there: u64) -> Option<Effect>
    requires { (i < 2 ^ 32) × (word_at log.now i logged_kind ≡ kind_insert) }
    ensures { (total : ℕ) → result ≡ as_outcome (still_at log.now i)
        (outcome_of (logged_at log.now i) crowded (balance_of there total)) }
{
    let answer = word_at(log, i, LOGGED_ANSWER);
    let total = word_at(log, i, LOGGED_TOTAL);
    if there != 0 {
        return (answer == ANSWER_BASE + ANSWER_REPLACED).then_some(Effect::Balance(1, total));
    }
    if crowded {
        return (answer == ANSWER_BASE + ANSWER_CROWDED).then_some(Effect::Unchanged);
    }
    (answer == ANSWER_BASE + ANSWER_ADDED).then_some(Effect::Balance(1, total))
}

// A delete.
fn deleted(log: &[u64], i: usize, there: u64) -> Option<Effect>
    requires { (i < 2 ^ 32) × (word_at log.now i logged_kind ≡ kind_delete) }
    ensures { (crowded : Bool) (total : ℕ) → result ≡ as_outcome (still_at log.now i)
        (outcome_of (logged_at log.now i) crowded (balance_of there total)) }
{
    let answer = word_at(log, i, LOGGED_ANSWER);
    if there != 0 {
        return (answer == ANSWER_BASE + ANSWER_REMOVED).then_some(Effect::Balance(0, 0));
    }
    (answer == ANSWER_BASE + ANSWER_ABSENT).then_some(Effect::Unchanged)
}

// A lookup: found counts with the account's total only.
fn looked_up(log: &[u64], i: usize, there: u64, total: u64) -> Option<Effect>
    requires { (i < 2 ^ 32) × (word_at log.now i logged_kind ≡ kind_lookup) }
    ensures { (crowded : Bool) → result ≡ as_outcome (still_at log.now i)
        (outcome_of (logged_at log.now i) crowded (balance_of there total)) }
{
    let answer = word_at(log, i, LOGGED_ANSWER);
    if there != 0 {
        let logged = word_at(log, i, LOGGED_ANSWER_TOTAL);
        let found = answer == ANSWER_BASE + ANSWER_FOUND && logged == total;
        return found.then_some(Effect::Unchanged);
    }
    (answer == ANSWER_BASE + ANSWER_NONE).then_some(Effect::Unchanged)
}

// A post for which there is room, by the total before it.
fn summed(log: &[u64], i: usize, total: u64) -> Option<Effect>
    requires { (i < 2 ^ 32) × (word_at log.now i logged_kind ≡ kind_post) }
    ensures { result ≡ as_outcome (still_at log.now i)
        (outcome_of (logged_at log.now i) false (Some (to_z w64 total))) }
{
    let answer = word_at(log, i, LOGGED_ANSWER);
    let logged = word_at(log, i, LOGGED_ANSWER_TOTAL);
    match sum_of(total, word_at(log, i, LOGGED_TOTAL)) {
        Some(sum) => {
            let posted = answer == ANSWER_BASE + ANSWER_POSTED && logged == sum;
            posted.then_some(Effect::Balance(1, sum))
        }
        None => (answer == ANSWER_BASE + ANSWER_OVERRUN).then_some(Effect::Unchanged),
    }
}

// A post; an account that is not there starts from 0.
fn posted(log: &[u64], i: usize, crowded: bool, there: u64, total: u64) -> Option<Effect>
    requires { (i < 2 ^ 32) × (word_at log.now i logged_kind ≡ kind_post) }
    ensures { result ≡ as_outcome (still_at log.now i)
        (outcome_of (logged_at log.now i) crowded (balance_of there total)) }
{
    if there != 0 {
        return summed(log, i, total);
    }
    if crowded {
        let answer = word_at(log, i, LOGGED_ANSWER);
        return (answer == ANSWER_BASE + ANSWER_CROWDED).then_some(Effect::Unchanged);
    }
    summed(log, i, 0)
}

// What the operation at place i makes of its account's balance.
fn outcome_of(log: &[u64], i: usize, crowded: bool, there: u64, total: u64) -> Option<Effect>
    requires { i < 2 ^ 32 }
    ensures { result ≡ as_outcome (still_at log.now i)
        (outcome_of (logged_at log.now i) crowded (balance_of there total)) }
{
    match word_at(log, i, LOGGED_KIND) {
        KIND_INSERT => inserted(log, i, crowded, there),
        KIND_DELETE => deleted(log, i, there),
        KIND_LOOKUP => looked_up(log, i, there, total),
        KIND_POST => posted(log, i, crowded, there, total),
        _ => None,
    }
}

// ---- the balances

// The balances after the operation at place i, where it gives the answer logged. Crowding counts for a new account
// only.
pub fn replay(
    log: &[u64],
    capacity: u64,
    depth: u64,
    mut balances: [u64; BALANCES],
    i: usize,
) -> Option<[u64; BALANCES]>
    requires { (length log.now ≤ greatest_operations * operation_words) × (i < greatest_operations) }
    ensures { result ≡ replayed log.now capacity depth balances i }
{
    let at = first_place(log, i) * BALANCE_WORDS;
    let there = balances[at];
    let total = balances[at + 1];
    let crowded = there == 0 && crowds(log, capacity, depth, balances, i);
    if let Effect::Balance(held, sum) = outcome_of(log, i, crowded, there, total)? {
        balances[at] = held;
        balances[at + 1] = sum;
    }
    Some(balances)
}
