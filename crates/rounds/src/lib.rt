// What a round does with a bucket's state: one worker's update carried out, a post apart, and a whole round.
// Each contract is an equality with a definition of specs/, for any values.
#![tactic(auto)]

ghost use Rattle.std.specs.Prelude.{◌≡◌, length, get_or};
ghost use Rattle.bucket.specs.State.{array_size};
ghost use Rattle.rounds.specs.Rounds.{post_of, changed_of, carry_of, round_of};

use arrays::Position;
use bucket::{ARRAY_SIZE, BucketState};
use fields::{SLOT_SIZE, SLOT_TICKET};
use interface::{
    ANSWER_ABSENT, ANSWER_ADDED, ANSWER_CROWDED, ANSWER_OVERRUN, ANSWER_POSTED, ANSWER_REMOVED,
    ANSWER_REPLACED, KIND_INSERT, KIND_POST, Settings,
};
use rules::{Descriptor, answer_number, crowded, descriptor_at, holds_back, pending};
use sums::sum_of;

// What stands at position j of an array, and 0 past the end.
fn at(a: &[u64; ARRAY_SIZE], j: usize) -> u64
    requires { length a.now ≡ array_size }
    ensures { result ≡ get_or a.now j 0 }
{
    a.get(j).copied().unwrap_or(0)
}

// Worker j's post carried out, where a search gave position p.
fn post(state: BucketState, j: usize, p: Position, u: Descriptor) -> BucketState
    ensures { result ≡ post_of state j p u }
{
    match sum_of(state.total(p), u.total) {
        Some(total) => {
            state
                .put(p, u.account, total)
                .settle(j, u.ticket, ANSWER_POSTED, total)
        }
        None => state.settle(j, u.ticket, ANSWER_OVERRUN, 0),
    }
}

// What worker j's update, for which a search gave position p, does where it is not crowded; any kind but an insert's
// and a post's is a delete.
fn change(state: BucketState, j: usize, p: Position, u: Descriptor) -> BucketState
    ensures { result ≡ changed_of state j p u }
{
    if u.kind == KIND_INSERT {
        state.put(p, u.account, u.total).settle(
            j,
            u.ticket,
            answer_number(p, ANSWER_REPLACED, ANSWER_ADDED),
            0,
        )
    } else if u.kind == KIND_POST {
        post(state, j, p, u)
    } else {
        state.remove(p).settle(
            j,
            u.ticket,
            answer_number(p, ANSWER_REMOVED, ANSWER_ABSENT),
            0,
        )
    }
}

// Worker j's update carried out, a new account in a full bucket as crowded.
pub fn carry(state: BucketState, s: Settings, j: usize, u: Descriptor) -> BucketState
    ensures { result ≡ carry_of state s j u }
{
    let p = state.search(u.account);
    if crowded(s, state.count, u.kind, p) {
        return state.settle(j, u.ticket, ANSWER_CROWDED, 0);
    }
    change(state, j, p, u)
}

// A whole round in a bucket of this depth, with the slots that were read; then the applied bits become the toggle.
// A slot that is not there has ticket 0, so that its worker needs no help.
pub fn round(state: BucketState, slots: &[u64], s: Settings, depth: u64, toggle: u64) -> BucketState
    ensures { result ≡ round_of state slots.now s depth toggle }
{
    let m = (slots.len() / SLOT_SIZE).min(s.workers as usize);
    let settled = state.settled;
    let mut x = state;
    for j in 0..m {
        let first = SLOT_SIZE * j;
        let ticket = slots[first + SLOT_TICKET];
        let last = at(&settled, j);
        if pending(toggle, x.applied, j, last, ticket) && !holds_back(s, depth, x.count) {
            x = carry(x, s, j, descriptor_at(slots, first));
        }
    }
    x.applied = toggle;
    x
}
