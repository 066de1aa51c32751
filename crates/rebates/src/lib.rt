// The rebates on the totals of a table: the listing, made in two local lists that hold every table's rows, and from it
// the accounts with the rebates on their totals.
#![tactic(auto)]

ghost use Rattle.std.specs.Prelude.{◌≡◌, ◌≤◌, length};
ghost use Rattle.sorting.specs.RowLists.{accounts_with, rows_at};
ghost use Rattle.rebates.specs.Rebates.{rebates_with, rebates_words};

use interface::Refusal;
use rebate::rebate;
use rows::{GREATEST_COUNT, listing};

// The first k rows' accounts and the rebates on their totals.
fn write(listed: &[u32], totals: &[i64], k: usize, accounts: &mut [u32], rebates: &mut [u64])
    requires { (k ≤ length listed.now) × ((k ≤ length totals.now) × ((k ≤ length accounts.old)
        × (k ≤ length rebates.old))) }
    ensures { (accounts.new
        ≡ accounts_with accounts.old 0 (rows_at listed.now totals.now 0 k))
        × (rebates.new
        ≡ rebates_with rebates.old 0 (rows_at listed.now totals.now 0 k)) }
{
    for i in 0..k {
        accounts[i] = listed[i];
        rebates[i] = rebate(totals[i]);
    }
}

// The accounts in ascending order with the rebates on their totals, nothing past the count: checks 8, 10.
pub fn rebates(words: &[u64], accounts: &mut [u32], rebates: &mut [u64]) -> Result<u64, Refusal>
    ensures { record { accounts = accounts.new; rebates = rebates.new; listed = result }
        ≡ rebates_words words.now accounts.old rebates.old }
{
    // Kept as arrays side by side: nothing allocates, and `listing` writes into two lists, as C lends them.
    let mut listed = [0u32; GREATEST_COUNT];
    let mut totals = [0i64; GREATEST_COUNT];
    let n = listing(words, &mut listed, &mut totals)?;
    let k = n as usize;
    if accounts.len() < k || rebates.len() < k {
        return Err(Refusal::Narrow);
    }
    write(&listed, &totals, k, accounts, rebates);
    Ok(n)
}
