// A worker's own update carried out on the words of a bucket's record: crowded, or what its kind does at the position
// that a search gave. What for: the head of crate own.
#![tactic(auto)]

ghost use Rattle.std.specs.Prelude.{◌≡◌, ◌<◌};
ghost use Rattle.interface.specs.Numbers.{kind_post};
ghost use Rattle.inplace.specs.InPlace.{Counted, RoomAt, Searched, changed_at, own_at};

use arrays::Position;
use inplace::{delete_own, put_own, search_own, settle_own, total_own};
use interface::{
    ANSWER_ADDED, ANSWER_CROWDED, ANSWER_OVERRUN, ANSWER_POSTED, ANSWER_REPLACED, KIND_INSERT,
    KIND_POST, Settings,
};
use rules::{Descriptor, answer_number, crowded};
use sums::sum_of;

// Worker j's post carried out at the position that a search gave, where there is room for it.
fn post_own(
    words: &mut [u64],
    g: Settings,
    q: usize,
    c: usize,
    toggle: u64,
    j: usize,
    p: Position,
    u: Descriptor,
)
    requires { Searched words.old g q c j p u × (RoomAt g c p × (u.kind ≡ kind_post)) }
    ensures { words.new ≡ changed_at words.old g q toggle j p u }
{
    match sum_of(total_own(words, g, q, c, u.account, p), u.total) {
        Some(total) => {
            let v = Descriptor { total, ..u };
            put_own(words, g, q, c, toggle, j, p, v, ANSWER_POSTED, total);
        }
        None => settle_own(words, g, q, c, toggle, j, u.ticket, ANSWER_OVERRUN),
    }
}

// Worker j's update carried out in the record at q, which has c accounts.
pub fn carry_own(
    words: &mut [u64],
    g: Settings,
    q: usize,
    c: usize,
    toggle: u64,
    j: usize,
    u: Descriptor,
)
    requires { Counted words.old g q c × (j < g.workers) }
    ensures { words.new ≡ own_at words.old g q toggle j u }
{
    let p = search_own(words, g, q, c, u.account);
    if crowded(g, c as u64, u.kind, p) {
        settle_own(words, g, q, c, toggle, j, u.ticket, ANSWER_CROWDED);
        return;
    }
    match u.kind {
        KIND_INSERT => {
            let answer = answer_number(p, ANSWER_REPLACED, ANSWER_ADDED);
            put_own(words, g, q, c, toggle, j, p, u, answer, 0);
        }
        KIND_POST => post_own(words, g, q, c, toggle, j, p, u),
        _ => delete_own(words, g, q, c, toggle, j, p, u),
    }
}
