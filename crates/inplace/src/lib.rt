// What a state's methods do, on the words of a bucket's record: search, total, settle, put and delete. What for: the
// head of crate own.
#![tactic(auto)]

ghost use Rattle.std.specs.Prelude.{◌≡◌, ◌≢◌, ◌<◌};
ghost use Rattle.interface.specs.Numbers.{kind_insert, kind_post};
ghost use Rattle.bucket.specs.State.{search_of, total_in, settle_of};
ghost use Rattle.record.specs.Bucket.{bucket_at};
ghost use Rattle.inplace.specs.InPlace.{Counted, RoomAt, Searched, record_as, put_at, changed_at};

use arrays::{Position, scan};
use fields::RECORD_ACCOUNTS;
use interface::{ANSWER_ABSENT, ANSWER_REMOVED, Settings};
use rules::Descriptor;
use writes::{lower_in, put_first, raise_in, settle};

// The account's position in the record at q, which has c accounts.
pub fn search_own(words: &[u64], g: Settings, q: usize, c: usize, account: u64) -> Position
    requires { Counted words.now g q c }
    ensures { result ≡ search_of (bucket_at words.now g q) account }
{
    let accounts = q + RECORD_ACCOUNTS;
    let end = accounts + c;
    scan(&words[accounts..end], account)
}

// The total at the position that a search gave; 0 where the account is missing.
pub fn total_own(words: &[u64], g: Settings, q: usize, c: usize, account: u64, p: Position) -> u64
    requires { Counted words.now g q c × (p ≡ search_of (bucket_at words.now g q) account) }
    ensures { result ≡ total_in (bucket_at words.now g q) p }
{
    match p {
        Position::At(i) => {
            memory::get(
                words,
                q + RECORD_ACCOUNTS + g.capacity as usize + i as usize,
            )
        }
        Position::Before(_) => 0,
    }
}

// Worker j's ticket settled with an answer that has no total, and no account changed.
pub fn settle_own(
    words: &mut [u64],
    g: Settings,
    q: usize,
    c: usize,
    toggle: u64,
    j: usize,
    ticket: u64,
    answer: u64,
)
    requires { Counted words.old g q c × (j < g.workers) }
    ensures { words.new
        ≡ record_as words.old g q toggle (settle_of (bucket_at words.old g q) j ticket answer 0) }
{
    put_first(words, q, c as u64, toggle);
    settle(words, g, q, j, ticket, answer, 0);
}

// The update's total set at the position that a search gave, a new account with it where it is missing, and worker j's
// ticket settled with an answer's number and total.
pub fn put_own(
    words: &mut [u64],
    g: Settings,
    q: usize,
    c: usize,
    toggle: u64,
    j: usize,
    p: Position,
    u: Descriptor,
    answer: u64,
    posted: u64,
)
    requires { Searched words.old g q c j p u × RoomAt g c p }
    ensures { words.new ≡ put_at words.old g q toggle j p u answer posted }
{
    let accounts = q + RECORD_ACCOUNTS;
    let totals = accounts + g.capacity as usize;
    match p {
        Position::At(i) => {
            put_first(words, q, c as u64, toggle);
            memory::put(words, totals + i as usize, u.total);
            settle(words, g, q, j, u.ticket, answer, posted);
        }
        Position::Before(i) => {
            let i = i as usize;
            put_first(words, q, c as u64 + 1, toggle);
            raise_in(words, accounts, c, i, u.account);
            raise_in(words, totals, c, i, u.total);
            settle(words, g, q, j, u.ticket, answer, posted);
        }
    }
}

// Worker j's delete carried out at the position that a search gave.
pub fn delete_own(
    words: &mut [u64],
    g: Settings,
    q: usize,
    c: usize,
    toggle: u64,
    j: usize,
    p: Position,
    u: Descriptor,
)
    requires { Searched words.old g q c j p u × ((u.kind ≢ kind_insert) × (u.kind ≢ kind_post)) }
    ensures { words.new ≡ changed_at words.old g q toggle j p u }
{
    match p {
        Position::At(i) => {
            let accounts = q + RECORD_ACCOUNTS;
            let totals = accounts + g.capacity as usize;
            let i = i as usize;
            put_first(words, q, c as u64 - 1, toggle);
            lower_in(words, accounts, c, i);
            lower_in(words, totals, c, i);
            settle(words, g, q, j, u.ticket, ANSWER_REMOVED, 0);
        }
        Position::Before(_) => settle_own(words, g, q, c, toggle, j, u.ticket, ANSWER_ABSENT),
    }
}
