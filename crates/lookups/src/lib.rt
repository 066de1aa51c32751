// A lookup's two steps.
#![tactic(auto)]

ghost use Rattle.std.specs.Prelude.{◌≡◌, ◌+◌, ◌≤◌, ◌<◌, length};
ghost use Rattle.fields.specs.Fields.{steps_range, worker_slots, widest_record};
ghost use Rattle.layout.specs.Shape.{Fits};
ghost use Rattle.lookups.specs.Lookups.{looked_at, lookup_at};

use arrays::{Position, scan};
use calls::finish;
use ends::completed;
use fields::{RECORD_ACCOUNTS, WORKER_ACCOUNT, WORKER_HELD};
use interface::{Answer, Settings, Stepped};
use layout::addresses::{record_in, record_of, size};

// What a lookup's end tells in place of a check.
const NO_CHECK: u64 = 0;

// What a lookup of an account in the record at q answers.
fn look(words: &[u64], g: Settings, q: usize, account: u64) -> Answer
    requires { Fits words.now g × (q + widest_record ≤ length words.now) }
    ensures { result ≡ looked_at words.now g q account }
{
    let c = size(words, g, q);
    let accounts = q + RECORD_ACCOUNTS;
    let end = accounts + c;
    match scan(&words[accounts..end], account) {
        Position::At(i) => {
            let at = accounts + g.capacity as usize + i as usize;
            Answer::Found(memory::total_of(memory::get(words, at)))
        }
        Position::Before(_) => Answer::None,
    }
}

// A lookup's step of the worker whose words are at p, after k own steps.
pub fn lookup_step(words: &mut [u64], g: Settings, p: usize, k: u64) -> Stepped
    requires { Fits words.old g × ((p + worker_slots ≤ length words.old) × (k < steps_range)) }
    ensures { (words.new, result) ≡ lookup_at words.old g p k }
{
    if k == 0 {
        let q = record_of(words, g, memory::get(words, p + WORKER_ACCOUNT));
        memory::put(words, p + WORKER_HELD, q as u64);
        return Stepped::Moved;
    }
    let q = record_in(words, memory::get(words, p + WORKER_HELD));
    let answer = look(words, g, q, memory::get(words, p + WORKER_ACCOUNT));
    finish(words, p);
    Stepped::Answered(completed(answer, k, NO_CHECK))
}
