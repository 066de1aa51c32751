// The listing: for each entry of the directory at depth M, those accounts of its bucket whose first M bits are the
// entry, all of them then sorted by account.
#![tactic(auto)]

ghost use Rattle.std.specs.Prelude.{◌≡◌, ◌≤◌, length};
ghost use Rattle.layout.specs.Shape.{Fits};
ghost use Rattle.sorting.specs.RowLists.{RowsWritten};
ghost use Rattle.rows.specs.Rows.{unsorted, listing_words};

use entries::{count_in, write_in};
use fields::HEADER_SETTINGS;
use interface::{Refusal, Settings};
use layout::shape::{settings_of, strange_words};

// The most rows that a listing has: 256 buckets of 16.
pub const GREATEST_COUNT: usize = 4096;

// How many rows there are.
fn count(words: &[u64], g: Settings) -> usize
    requires { Fits words.now g }
    ensures { result ≡ length (unsorted words.now g) }
{
    let span: usize = 1 << g.depth;
    let mut k: usize = 0;
    for e in 0..span {
        k += count_in(words, g, e);
    }
    k
}

// All rows written, in the directory's order.
fn write(words: &[u64], g: Settings, accounts: &mut [u32], totals: &mut [i64])
    requires { Fits words.now g × ((length (unsorted words.now g) ≤ length accounts.old)
        × (length (unsorted words.now g) ≤ length totals.old)) }
    ensures { RowsWritten accounts.old totals.old 0 (unsorted words.now g)
        accounts.new totals.new }
{
    let span: usize = 1 << g.depth;
    let mut k: usize = 0;
    for e in 0..span {
        k = write_in(words, g, e, k, accounts, totals);
    }
}

// The accounts in ascending order with their totals, nothing past the count: checks 8, 10.
pub fn listing(words: &[u64], accounts: &mut [u32], totals: &mut [i64]) -> Result<u64, Refusal>
    ensures { record { accounts = accounts.new; totals = totals.new; listed = result }
        ≡ listing_words words.now accounts.old totals.old }
{
    if strange_words(words) {
        return Err(Refusal::Strange);
    }
    let g = settings_of(words[HEADER_SETTINGS]);
    let k = count(words, g);
    if accounts.len() < k {
        return Err(Refusal::Narrow);
    }
    if totals.len() < k {
        return Err(Refusal::Narrow);
    }
    write(words, g, accounts, totals);
    sorting::sort(accounts, totals, k);
    Ok(k as u64)
}
