// Judging a log: its checks, and the search for an order from the empty table. Rests on the checks, crate wellformed,
// and on the search, crate searching.
#![tactic(auto)]

ghost use Rattle.std.specs.Prelude.{◌≡◌, ◌≤◌};
ghost use Rattle.logs.specs.Judging.{check_log_words};
ghost use Rattle.logs.specs.Log.{greatest_operations};
ghost use Rattle.judging.specs.Places.{all_left};

use interface::{Refusal, Settings, Verdict};
use logs::{GREATEST_OPERATIONS, OPERATION_WORDS};
use replay::BALANCES;
use searching::search;
use wellformed::is_log;

// The first n places, all of them left.
fn all_left(n: usize) -> [u64; GREATEST_OPERATIONS]
    requires { n ≤ greatest_operations }
    ensures { result ≡ all_left n }
{
    let mut left = [0u64; GREATEST_OPERATIONS];
    left[..n].fill(1);
    left
}

// Whether some order explains the log, as crate logs defines it; `order` then begins with the first of all that do.
// Checks 1, 14, 10; a refusal and a no leave `order` as it is.
pub fn check_log(
    log: &[u64],
    capacity: u64,
    depth: u64,
    order: &mut [u64],
) -> Result<Verdict, Refusal>
    ensures { (order.new, result)
        ≡ check_log_words log.now capacity depth order.old }
{
    Settings::new(Settings::LEAST_WORKERS, capacity, depth)?;
    if !is_log(log) {
        return Err(Refusal::BadLog);
    }
    let count = log.len() / OPERATION_WORDS;
    if order.len() < count {
        return Err(Refusal::Narrow);
    }
    let empty = [0u64; BALANCES];
    if search(
        log,
        capacity,
        depth,
        empty,
        0,
        all_left(count),
        empty,
        order,
        count,
    ) {
        return Ok(Verdict::Accepted);
    }
    Ok(Verdict::No)
}
