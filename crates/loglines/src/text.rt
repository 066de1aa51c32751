// What is printed at the end of the input: the order, `no`, `refused` and the number, or `unread` and the line. Rests
// on the judgement, on printers and on decimals.
ghost use Rattle.std.specs.Prelude.{ℕ, ◌+◌, ◌*◌, ◌≤◌, ◌≡◌, List, length, take};
ghost use Rattle.lists.specs.Parts.{overlay};
ghost use Rattle.loglines.specs.Texts.{order_text, place_text};
ghost use Rattle.loglines.specs.Inputs.{input_text};
ghost use Rattle.loglines.specs.Holding.{kept_words, kept_log, first_unread};
ghost use Rattle.loglines.specs.Feeding.{text_room, printed, concluded};

use crate::progress::{Feeding, KEPT_WORDS, Progress};
use decimals::{digit_count, spell};
use interface::Verdict;
use judging::check_log;
use logs::{GREATEST_OPERATIONS, OPERATION_WORDS};
use printers::{print_counted, print_word};

// The bytes that any text has room in.
pub const TEXT_ROOM: usize = 258;

// The end of the input: prints one line at the start of `out` and answers how many bytes it has; nothing, and 0, where
// `out` has fewer than TEXT_ROOM.
pub fn conclude(feeding: Feeding, out: &mut [u8]) -> usize
    ensures told { (out.new, result) ≡ concluded feeding out.old }
    ensures within { result ≤ length out.new }
{
    if out.len() < TEXT_ROOM {
        return 0;
    }
    let progress = feeding.end();
    let line = unread(progress);
    if 0 < line {
        return print_counted(out, 0, b"unread ", line);
    }
    print_judged(progress, out)
}

// The first line that is none of a log, counted from 1; 0 where each is one.
fn unread(progress: Progress) -> u64
    ensures { result ≡ first_unread progress }
{
    if progress.lines == 0 {
        return 1;
    }
    if progress.bad {
        return progress.lines;
    }
    0
}

// Judges what was read, and prints the verdict.
fn print_judged(progress: Progress, out: &mut [u8]) -> usize
    requires { text_room ≤ length out.old }
    ensures told { (out.new, result) ≡ printed out.old (input_text (kept_log progress)) }
    ensures within { result ≤ length out.new }
{
    let kept = progress.kept;
    let words = kept.words;
    let filled = within(kept.filled);
    let mut order = [0u64; GREATEST_OPERATIONS];
    let verdict = check_log(
        &words[..filled],
        progress.capacity,
        progress.depth,
        &mut order,
    );
    match verdict {
        Ok(Verdict::Accepted) => print_order(out, &order[..filled / OPERATION_WORDS]),
        Ok(Verdict::No) => print_word(out, 0, b"no\n"),
        Err(refusal) => print_counted(out, 0, b"refused ", refusal.number()),
    }
}

// How many words are filled, at most all.
fn within(filled: usize) -> usize
    ensures { (result ≤ kept_words) × ((l : List ℕ) → length l ≡ kept_words → take result l ≡ take filled l) }
{
    filled.min(KEPT_WORDS)
}

// The line of an order.
fn print_order(out: &mut [u8], places: &[u64]) -> usize
    requires { 6 + 21 * length places.now ≤ length out.old }
    ensures { (out.new ≡ overlay out.old 0 (order_text places.now))
        × ((result ≡ length (order_text places.now)) × (result ≤ length out.new)) }
{
    let mut at = print_word(out, 0, b"order");
    for &place in places {
        at = print_place(out, at, place);
    }
    out[at] = b'\n';
    at + 1
}

// A place, behind a space: answers the index behind it.
fn print_place(out: &mut [u8], at: usize, place: u64) -> usize
    requires { at + 21 ≤ length out.old }
    ensures { (out.new ≡ overlay out.old at (place_text place))
        × ((result ≡ at + length (place_text place)) × (result ≤ at + 21)) }
{
    let k = digit_count(place);
    out[at] = b' ';
    spell(out, at + 1, k, place);
    at + 1 + k
}
