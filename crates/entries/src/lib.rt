// The rows of one entry of the directory at depth M: those accounts of its bucket whose first M bits are the entry,
// counted and written.
#![tactic(auto)]

ghost use Rattle.std.specs.Prelude.{◌≡◌, ◌+◌, ◌^◌, ◌≤◌, ◌<◌, length};
ghost use Rattle.layout.specs.Shape.{Fits};
ghost use Rattle.sorting.specs.RowLists.{RowsWritten};
ghost use Rattle.entries.specs.Entries.{entry_record, rows_of};

use fields::RECORD_ACCOUNTS;
use interface::Settings;
use layout::addresses::{record_in, size};
use layout::shape::directory_start;
use rules::first_bits;

// The record that entry e names.
fn entry_record(words: &[u64], g: Settings, e: usize) -> usize
    requires { Fits words.now g × (e < 2 ^ g.depth) }
    ensures { result ≡ entry_record words.now g e }
{
    record_in(words, memory::get_or(words, directory_start(g) + e))
}

// How many rows entry e has.
pub fn count_in(words: &[u64], g: Settings, e: usize) -> usize
    requires { Fits words.now g × (e < 2 ^ g.depth) }
    ensures { result ≡ length (rows_of words.now g e) }
{
    let q = entry_record(words, g, e);
    let c = size(words, g, q);
    // Kept: by filter(..).count(), a listing of 16 accounts takes 6,187 instructions an account in place of 4,679.
    let mut k: usize = 0;
    for i in 0..c {
        if first_bits(g.depth, memory::get(words, q + RECORD_ACCOUNTS + i)) == e as u64 {
            k += 1;
        }
    }
    k
}

// The rows of entry e, written from position k on; the position after them.
pub fn write_in(
    words: &[u64],
    g: Settings,
    e: usize,
    k: usize,
    accounts: &mut [u32],
    totals: &mut [i64],
) -> usize
    requires { Fits words.now g × ((e < 2 ^ g.depth)
        × ((k + length (rows_of words.now g e) ≤ length accounts.old)
        × (k + length (rows_of words.now g e) ≤ length totals.old))) }
    ensures { (result ≡ k + length (rows_of words.now g e))
        × RowsWritten accounts.old totals.old k (rows_of words.now g e)
        accounts.new totals.new }
{
    let q = entry_record(words, g, e);
    let b = g.capacity as usize;
    let c = size(words, g, q);
    let mut at = k;
    for i in 0..c {
        let a = memory::get(words, q + RECORD_ACCOUNTS + i);
        if first_bits(g.depth, a) == e as u64 {
            accounts[at] = (a % 4294967296) as u32;
            totals[at] = memory::total_of(memory::get(words, q + RECORD_ACCOUNTS + b + i));
            at += 1;
        }
    }
    at
}
