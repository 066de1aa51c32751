// The listing of a table as a file: made in two local lists that hold every table's rows, and written where the output
// is long enough for all of it.
#![tactic(auto)]

ghost use Rattle.std.specs.Prelude.{◌≡◌, ◌+◌, ◌*◌, ◌≤◌, ltb, length};
ghost use Rattle.lists.specs.Parts.{overlay};
ghost use Rattle.sorting.specs.RowLists.{rows_at};
ghost use Rattle.rows.specs.Rows.{greatest_count};
ghost use Rattle.csv_file.specs.Csv.{csv_file, header_size, longest_row};
ghost use Rattle.export.specs.Export.{export_words};

use csv_file::{HEADER_SIZE, LONGEST_ROW, row_size, write_header, write_row};
use interface::Refusal;
use rows::{GREATEST_COUNT, listing};

// How many bytes the file of the first k rows takes.
fn file_size(accounts: &[u32], totals: &[i64], k: usize) -> usize
    requires { (k ≤ greatest_count) × ((k ≤ length accounts.now) × (k ≤ length totals.now)) }
    ensures { result ≡ length (csv_file (rows_at accounts.now totals.now 0 k)) }
{
    let mut size = HEADER_SIZE;
    for i in 0..k {
        size += row_size(accounts[i], totals[i]);
    }
    size
}

// Whether so many bytes are too few for the file of the first k rows. It is measured only where k rows of the longest
// sort would not fit, which saves 37 of 630 instructions an account.
fn too_short(accounts: &[u32], totals: &[i64], k: usize, bytes: usize) -> bool
    requires { (k ≤ greatest_count) × ((k ≤ length accounts.now) × ((k ≤ length totals.now)
        × (length (csv_file (rows_at accounts.now totals.now 0 k)) ≤ header_size + longest_row * k))) }
    ensures { result ≡ ltb bytes (length (csv_file (rows_at accounts.now totals.now 0 k))) }
{
    bytes < HEADER_SIZE + LONGEST_ROW * k && bytes < file_size(accounts, totals, k)
}

// Writes the file of the first k rows, and answers how many bytes it has.
fn write_file(accounts: &[u32], totals: &[i64], k: usize, out: &mut [u8]) -> usize
    requires { (k ≤ length accounts.now) × ((k ≤ length totals.now)
        × (length (csv_file (rows_at accounts.now totals.now 0 k)) ≤ length out.old)) }
    ensures { (out.new ≡ overlay out.old 0
        (csv_file (rows_at accounts.now totals.now 0 k)))
        × (result ≡ length (csv_file (rows_at accounts.now totals.now 0 k))) }
{
    write_header(out);
    let mut at = HEADER_SIZE;
    for i in 0..k {
        at = write_row(out, at, accounts[i], totals[i]);
    }
    at
}

// The listing as a file at the start of the output, nothing past it: checks 8, 10.
pub fn export(words: &[u64], out: &mut [u8]) -> Result<u64, Refusal>
    ensures { (out.new, result) ≡ export_words words.now out.old }
{
    // Kept as arrays side by side: nothing allocates, and `listing` writes into two lists, as C lends them.
    let mut accounts = [0u32; GREATEST_COUNT];
    let mut totals = [0i64; GREATEST_COUNT];
    let n = listing(words, &mut accounts, &mut totals)?;
    let k = n as usize;
    if too_short(&accounts, &totals, k, out.len()) {
        return Err(Refusal::Narrow);
    }
    Ok(write_file(&accounts, &totals, k, out) as u64)
}
