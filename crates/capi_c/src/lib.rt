// The functions of `capi` as exports to C, each by its own name and with its own clauses: a slice is a pointer and a
// length. include/totals.h declares them.
// Kept beside it: a crate is a library or a static library, and other crates name that one.
#![tactic(auto)]

ghost use Rattle.std.specs.Prelude.{◌≡◌};
ghost use Rattle.interface.specs.Limits.{built};
ghost use Rattle.machine.specs.Sequential.{place, account_at};
ghost use Rattle.rebate.specs.Rebate.{rebate_on};
ghost use Rattle.opening.specs.Opening.{needed_for, open_words};
ghost use Rattle.calls.specs.Calls.{call_words};
ghost use Rattle.logs.specs.Judging.{check_log_words};
ghost use Rattle.numbers.specs.Returned.{needed_number, done_number, verdict_number};
ghost use Rattle.capi.specs.Flat.{flat, step_left, run_left, export_left, list_written, rebates_written};

// How many words a table of these settings needs, or 1 for wrong settings.
#[unsafe(no_mangle)]
pub extern "C" fn totals_words_needed(workers: u64, capacity: u64, depth: u64) -> u64
    ensures { result ≡ needed_number (needed_for (built workers capacity depth)) }
{
    capi::totals_words_needed(workers, capacity, depth)
}

// A fresh table: 0, or 1, 2.
#[unsafe(no_mangle)]
pub extern "C" fn totals_open(words: &mut [u64], workers: u64, capacity: u64, depth: u64) -> u64
    ensures { (words.new, result)
        ≡ flat done_number (open_words words.old workers capacity depth) }
{
    capi::totals_open(words, workers, capacity, depth)
}

// An operation handed to a worker: 0, or 8, 3, 4, 6, 7.
#[unsafe(no_mangle)]
pub extern "C" fn totals_call(
    words: &mut [u64],
    worker: u64,
    kind: u64,
    account: u32,
    total: i64,
) -> u64
    ensures { (words.new, result)
        ≡ flat done_number (call_words words.old worker kind account total) }
{
    capi::totals_call(words, worker, kind, account, total)
}

// One step of a worker: 0 where its operation goes on, 16 and the answer's number where it ended, or 8, 3, 5.
#[unsafe(no_mangle)]
pub extern "C" fn totals_step(words: &mut [u64], worker: u64, report: &mut [u64]) -> u64
    ensures { record { lent = words.new; report = report.new; number = result }
        ≡ step_left words.old report.old worker }
{
    capi::totals_step(words, worker, report)
}

// Up to so many steps of a worker, ending early at an answer: as a step, and the steps given are reported where the
// operation goes on.
#[unsafe(no_mangle)]
pub extern "C" fn totals_run(words: &mut [u64], worker: u64, most: u64, report: &mut [u64]) -> u64
    ensures { record { lent = words.new; report = report.new; number = result }
        ≡ run_left words.old report.old worker most }
{
    capi::totals_run(words, worker, most, report)
}

// The accounts in ascending order with their totals: 0 and the count reported, or 8, 10.
#[unsafe(no_mangle)]
pub extern "C" fn totals_list(
    words: &[u64],
    accounts: &mut [u32],
    totals: &mut [i64],
    report: &mut [u64],
) -> u64
    ensures { record {
      accounts = accounts.new;
      totals = totals.new;
      report = report.new;
      number = result;
    } ≡ list_written words.now accounts.old totals.old report.old }
{
    capi::totals_list(words, accounts, totals, report)
}

// The accounts in ascending order with the rebates on their totals: 0 and the count reported, or 8, 10.
#[unsafe(no_mangle)]
pub extern "C" fn totals_rebates(
    words: &[u64],
    accounts: &mut [u32],
    rebates: &mut [u64],
    report: &mut [u64],
) -> u64
    ensures { record {
      accounts = accounts.new;
      rebates = rebates.new;
      report = report.new;
      number = result;
    } ≡ rebates_written words.now accounts.old rebates.old report.old }
{
    capi::totals_rebates(words, accounts, rebates, report)
}

// The listing as a file of RFC 4180 records: 0 and the bytes written reported, or 8, 10.
#[unsafe(no_mangle)]
pub extern "C" fn totals_export(words: &[u64], out: &mut [u8], report: &mut [u64]) -> u64
    ensures { record { lent = out.new; report = report.new; number = result }
        ≡ export_left words.now out.old report.old }
{
    capi::totals_export(words, out, report)
}

// The rebate on a total.
#[unsafe(no_mangle)]
pub extern "C" fn totals_rebate(total: i64) -> u64
    ensures { result ≡ rebate_on total }
{
    capi::totals_rebate(total)
}

// The place of an account: those whose places agree in the first bits share a bucket.
#[unsafe(no_mangle)]
pub extern "C" fn totals_place(account: u32) -> u32
    ensures { result ≡ place account }
{
    capi::totals_place(account)
}

// The account at a place: the way back, exact in either order.
#[unsafe(no_mangle)]
pub extern "C" fn totals_account_at(place: u32) -> u32
    ensures { result ≡ account_at place }
{
    capi::totals_account_at(place)
}

// Whether some order explains a log: 0 and the first such order at the start of the list, 16 where none does, or 1, 14,
// 10.
#[unsafe(no_mangle)]
pub extern "C" fn totals_check_log(log: &[u64], capacity: u64, depth: u64, order: &mut [u64]) -> u64
    ensures { (order.new, result)
        ≡ flat verdict_number (check_log_words log.now capacity depth order.old) }
{
    capi::totals_check_log(log, capacity, depth, order)
}
