// The sum of a total and an amount, each as the word that keeps it, where it is a total again.
#![tactic(auto)]

ghost use Rattle.std.specs.Prelude.{◌≡◌};
ghost use Rattle.sums.specs.Sums.{sum_of};

use memory::{total_of, word_of};

// The word of the sum of what two words keep, where it lies within the 64-bit signed range.
pub fn sum_of(total: u64, amount: u64) -> Option<u64>
    ensures { result ≡ sum_of total amount }
{
    let sum = total_of(total).checked_add(total_of(amount))?;
    Some(word_of(sum))
}
