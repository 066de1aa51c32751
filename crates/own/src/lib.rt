// A worker's own update, carried out on the words of a bucket's record, where it is all that a round has to carry
// out. Written twice for speed, beside `carry` of crate rounds, whose search and loops it shares: no state is loaded,
// copied and stored. This source compiled as Rust takes 2,035 instructions for an insert at n 1 by single steps and
// 1,540 by `run`; without crates own, carrying, inplace and writes 2,586 and 2,091 (docs/DECISIONS.md, 43).
#![tactic(auto)]

ghost use Rattle.std.specs.Prelude.{◌≡◌};
ghost use Rattle.fields.specs.Regions.{worker_at};
ghost use Rattle.inplace.specs.InPlace.{round_at};
ghost use Rattle.own.specs.Alone.{OwnAlone};

use carrying::carry_own;
use fields::{RECORD_COUNT, RECORD_DEPTH};
use interface::Settings;
use layout::addresses::slot_read;
use memory::least;
use record::settled_ticket;
use rules::holds_back;
use writes::put_first;

// A round that has only worker w's own update to carry out, as worker w has read it, in the record at q.
pub fn own_round(words: &mut [u64], g: Settings, w: usize, q: usize, toggle: u64)
    requires { OwnAlone words.old g w q toggle }
    ensures { words.new ≡ round_at words.old g (worker_at g.workers w) q }
{
    let c = least(memory::get(words, q + RECORD_COUNT), g.capacity as usize);
    if holds_back(g, memory::get(words, q + RECORD_DEPTH), c as u64) {
        put_first(words, q, c as u64, toggle);
        return;
    }
    let u = slot_read(words, g, w, w);
    // Kept: two returns. By one test (`||`) an insert takes 2 instructions more and a post 6 (bench/table.sh, n 1).
    if u.ticket <= settled_ticket(words, g, q, w) {
        put_first(words, q, c as u64, toggle);
        return;
    }
    carry_own(words, g, q, c, toggle, w, u);
}
