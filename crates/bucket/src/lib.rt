// A bucket's state by value: search, a total read, put and remove, and a ticket settled. Every field is a word, so that
// a state is loaded and stored by copying. Each contract is an equality with a definition of specs/, for any values.
#![tactic(auto)]

ghost use Rattle.std.specs.Prelude.{◌≡◌};
ghost use Rattle.bucket.specs.State.{size_of, search_of, total_in, put_of, remove_of, settle_of};

use arrays::{Position, lower, raise, scan};
use interface::Settings;

// The items of each array of a state.
pub const ARRAY_SIZE: usize = Settings::GREATEST_CAPACITY as usize;

// Accounts ascending with their totals, the first `count` of each; per worker the last settled ticket with its answer's
// number and the total that it has, 0 where it has none; one applied bit per worker. A count above the arrays' size is
// read as their size.
// Kept as arrays with a count: document 01 names this form, a struct by value with these arrays.
#[derive(Clone, Copy)]
pub struct BucketState {
    pub accounts: [u64; ARRAY_SIZE],
    pub totals: [u64; ARRAY_SIZE],
    pub settled: [u64; ARRAY_SIZE],
    pub answers: [u64; ARRAY_SIZE],
    pub posted: [u64; ARRAY_SIZE],
    pub count: u64,
    pub applied: u64,
}

// Kept: arrays change in locals, for `..self`: `mut self` copies all five, and a put takes 844 instructions, not 670.
impl BucketState {
    // How many accounts: at most as many as an array has items.
    pub fn size(self) -> usize
        ensures { result ≡ size_of self }
    {
        ARRAY_SIZE.min(self.count as usize)
    }

    // The first position whose account is not below this one.
    pub fn search(self, account: u64) -> Position
        ensures { result ≡ search_of self account }
    {
        let accounts = self.accounts;
        let n = self.size();
        scan(&accounts[0..n], account)
    }

    // The total at the position that a search gave; 0 where the account is missing.
    pub fn total(self, p: Position) -> u64
        ensures { result ≡ total_in self p }
    {
        let Position::At(i) = p else {
            return 0;
        };
        let totals = self.totals;
        totals.get(i as usize).copied().unwrap_or(0)
    }

    // The account's total set at the position that a search gave; a new account only where there is room for it.
    pub fn put(self, p: Position, account: u64, total: u64) -> BucketState
        ensures { result ≡ put_of self p account total }
    {
        let mut accounts = self.accounts;
        let mut totals = self.totals;
        let mut count = self.count;
        match p {
            Position::At(here) => {
                let here = here as usize;
                if here < ARRAY_SIZE {
                    totals[here] = total;
                }
            }
            Position::Before(next) => {
                let n = self.size();
                if n < ARRAY_SIZE {
                    let next = next as usize;
                    raise(&mut accounts, n, next, account);
                    raise(&mut totals, n, next, total);
                    count = n as u64 + 1;
                }
            }
        }
        BucketState {
            accounts,
            totals,
            count,
            ..self
        }
    }

    // The account at the position that a search gave taken out, where it is there.
    pub fn remove(self, p: Position) -> BucketState
        ensures { result ≡ remove_of self p }
    {
        let Position::At(i) = p else {
            return self;
        };
        let mut accounts = self.accounts;
        let mut totals = self.totals;
        let i = i as usize;
        let n = self.size();
        lower(&mut accounts, n, i);
        lower(&mut totals, n, i);
        BucketState {
            accounts,
            totals,
            count: n.saturating_sub(1) as u64,
            ..self
        }
    }

    // Worker j's ticket settled with an answer's number and total.
    pub fn settle(self, j: usize, ticket: u64, answer: u64, total: u64) -> BucketState
        ensures { result ≡ settle_of self j ticket answer total }
    {
        if ARRAY_SIZE <= j {
            return self;
        }
        let mut settled = self.settled;
        let mut answers = self.answers;
        let mut posted = self.posted;
        settled[j] = ticket;
        answers[j] = answer;
        posted[j] = total;
        BucketState {
            settled,
            answers,
            posted,
            ..self
        }
    }
}
