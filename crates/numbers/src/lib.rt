// Each call's answer as a C function gives it: a number, and for a step, a run, a listing and an export a report beside
// it.
// Rests on the reports of crate report. Kept as functions, beside `From`: C is handed these numbers, and a report.
#![tactic(auto)]

ghost use Rattle.std.specs.Prelude.{◌≡◌};
ghost use Rattle.numbers.specs.Returned.{needed_number, done_number, stepped_number, ran_number, counted_number, stepped_report, ran_report, counted_report, verdict_number};

use interface::{Ran, Refusal, Stepped, Verdict};
use report::{ANSWER_BASE, ended, tell, tell_one};

// The words needed, or 1 for wrong settings.
pub fn needed_number(answer: Result<u64, Refusal>) -> u64
    ensures { result ≡ needed_number answer }
{
    match answer {
        Ok(k) => k,
        Err(r) => r.number(),
    }
}

// Of an opening or a call: 0, or the refusal.
pub fn done_number(answer: Result<(), Refusal>) -> u64
    ensures { result ≡ done_number answer }
{
    match answer {
        Ok(()) => 0,
        Err(r) => r.number(),
    }
}

// 0 where the operation goes on; its end is reported.
pub fn stepped_number(report: &mut [u64], answer: Stepped) -> u64
    ensures { (report.new ≡ stepped_report report.old answer) × (result ≡ stepped_number answer) }
{
    match answer {
        Stepped::Moved => 0,
        Stepped::Answered(c) => ended(report, c),
        Stepped::Refused(r) => r.number(),
    }
}

// As of a step, and the steps given are reported where the operation goes on.
pub fn ran_number(report: &mut [u64], answer: Result<Ran, Refusal>) -> u64
    ensures { (report.new ≡ ran_report report.old answer) × (result ≡ ran_number answer) }
{
    match answer {
        Ok(Ran::Moved(k)) => {
            tell(report, k, 0, 0);
            0
        }
        Ok(Ran::Answered(c)) => ended(report, c),
        Err(r) => r.number(),
    }
}

// Of a listing, of rebates or of an export: 0 and the rows or the bytes reported, or the refusal.
pub fn counted_number(report: &mut [u64], answer: Result<u64, Refusal>) -> u64
    ensures { (report.new ≡ counted_report report.old answer) × (result ≡ counted_number answer) }
{
    match answer {
        Ok(k) => {
            tell_one(report, k);
            0
        }
        Err(r) => r.number(),
    }
}

// 0 where an order explains the log; where none does, a number past every refusal's that no answer has; or the refusal.
pub fn verdict_number(verdict: Result<Verdict, Refusal>) -> u64
    ensures { result ≡ verdict_number verdict }
{
    match verdict {
        Ok(Verdict::Accepted) => 0,
        Ok(Verdict::No) => ANSWER_BASE,
        Err(r) => r.number(),
    }
}
