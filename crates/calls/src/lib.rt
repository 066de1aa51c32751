// An operation handed to a worker, and its end.
#![tactic(auto)]

ghost use Rattle.std.specs.Prelude.{◌≡◌, ◌+◌, ◌≤◌, ◌<◌, length, set};
ghost use Rattle.interface.specs.Numbers.{kind_none};
ghost use Rattle.fields.specs.Fields.{worker_kind, worker_steps, worker_slots};
ghost use Rattle.fields.specs.Regions.{worker_at};
ghost use Rattle.layout.specs.Shape.{Fits};
ghost use Rattle.calls.specs.Calls.{begun_at, call_in, call_words};

use fields::{
    HEADER_SETTINGS, WORKER_ACCOUNT, WORKER_KIND, WORKER_STEPS, WORKER_TICKET, WORKER_TOTAL,
};
use interface::{
    GREATEST_KIND, GREATEST_TICKET, KIND_DELETE, KIND_INSERT, KIND_LOOKUP, KIND_NONE, Refusal,
    Settings,
};
use layout::addresses::worker_at;
use layout::shape::{settings_of, strange_words};
use rules::Descriptor;

// Worker w's operation begins: no steps yet.
fn begin(words: &mut [u64], g: Settings, w: usize, u: Descriptor)
    requires { Fits words.old g × (w < g.workers) }
    ensures { words.new ≡ begun_at words.old (worker_at g.workers w) u }
{
    let p = worker_at(g, w);
    memory::put(words, p + WORKER_KIND, u.kind);
    memory::put(words, p + WORKER_ACCOUNT, u.account);
    memory::put(words, p + WORKER_TOTAL, u.total);
    memory::put(words, p + WORKER_TICKET, u.ticket);
    memory::put(words, p + WORKER_STEPS, 0);
}

// A call of worker w: checks 4, 6, 7.
fn call_in(
    words: &mut [u64],
    g: Settings,
    w: usize,
    kind: u64,
    account: u32,
    total: i64,
) -> Result<(), Refusal>
    requires { Fits words.old g × (w < g.workers) }
    ensures { (words.new, result)
        ≡ call_in words.old (worker_at g.workers w) kind account total }
{
    let p = worker_at(g, w);
    if memory::get(words, p + WORKER_KIND) != KIND_NONE {
        return Err(Refusal::Busy);
    }
    if !matches!(kind, KIND_INSERT..=GREATEST_KIND) {
        return Err(Refusal::Kind);
    }
    let account = account as u64;
    let last = memory::get(words, p + WORKER_TICKET);
    if kind == KIND_LOOKUP {
        begin(
            words,
            g,
            w,
            Descriptor {
                kind,
                account,
                total: 0,
                ticket: last,
            },
        );
        return Ok(());
    }
    if GREATEST_TICKET <= last {
        return Err(Refusal::Spent);
    }
    let total = if kind == KIND_DELETE {
        0
    } else {
        memory::word_of(total)
    };
    begin(
        words,
        g,
        w,
        Descriptor {
            kind,
            account,
            total,
            ticket: last + 1,
        },
    );
    Ok(())
}

// An operation handed to a worker: checks 8, 3, 4, 6, 7; an update takes its ticket here.
pub fn call(
    words: &mut [u64],
    worker: u64,
    kind: u64,
    account: u32,
    total: i64,
) -> Result<(), Refusal>
    ensures { (words.new, result) ≡ call_words words.old worker kind account total }
{
    if strange_words(words) {
        return Err(Refusal::Strange);
    }
    let g = settings_of(words[HEADER_SETTINGS]);
    if g.workers <= worker {
        return Err(Refusal::Stranger);
    }
    call_in(words, g, worker as usize, kind, account, total)
}

// ---- the end of an operation

// The operation of the worker whose words are at p is over.
pub fn finish(words: &mut [u64], p: usize)
    requires { p + worker_slots ≤ length words.old }
    ensures { words.new
        ≡ set (set words.old (p + worker_kind) kind_none) (p + worker_steps) 0 }
{
    memory::put(words, p + WORKER_KIND, KIND_NONE);
    memory::put(words, p + WORKER_STEPS, 0);
}
