// Words and numbers printed into a caller's buffer, from an index on: the whole text, or nothing where it has no room.
// Each printer answers how many bytes it wrote. Depends on decimals for the numbers.
// Kept beside `Display` and `write!`: into a buffer of bytes these take 1,396 instructions a row of an export where the
// functions here take 597 (bench/table.sh), and a contract says which bytes are written.
#![tactic(auto)]

ghost use Rattle.std.specs.Prelude.{◌+◌, ◌≤◌, ◌≡◌, ◌++◌, leb, length};
ghost use Rattle.lists.specs.Parts.{overlay};
ghost use Rattle.printers.specs.Written.{Wrote, counted_text, pair_text};

use decimals::{Decimal, digit_count, spell, spell_decimal, width};

// Bytes as they are.
pub fn print_word(out: &mut [u8], at: usize, word: &[u8]) -> usize
    ensures { Wrote out.old at word.now result out.new }
{
    let size = word.len();
    if !room(out.len(), at, size) {
        return 0;
    }
    copy(out, at, word);
    size
}

// A word, with the space after it, a number and a line feed.
pub fn print_counted(out: &mut [u8], at: usize, word: &[u8], n: u64) -> usize
    ensures { Wrote out.old at (counted_text word.now n) result out.new }
{
    let first = word.len();
    let second = digit_count(n);
    let size = first + second + 1;
    if !room(out.len(), at, size) {
        return 0;
    }
    copy(out, at, word);
    let next = at + first;
    spell(out, next, second, n);
    let feed = next + second;
    out[feed] = b'\n';
    size
}

// A word, with the space after it, two numbers and a line feed.
pub fn print_pair(out: &mut [u8], at: usize, word: &[u8], a: Decimal, b: Decimal) -> usize
    ensures { Wrote out.old at (word.now ++ pair_text a b) result out.new }
{
    let first = word.len();
    let second = width(a) + 1 + width(b) + 1;
    let size = first + second;
    if !room(out.len(), at, size) {
        return 0;
    }
    copy(out, at, word);
    spell_pair(out, at + first, a, b);
    size
}

// Writes two numbers, a space between them, and a line feed.
fn spell_pair(out: &mut [u8], at: usize, a: Decimal, b: Decimal)
    requires { at + length (pair_text a b) ≤ length out.old }
    ensures { out.new ≡ overlay out.old at (pair_text a b) }
{
    let space = at + width(a);
    spell_decimal(out, at, a);
    out[space] = b' ';
    let next = space + 1;
    spell_decimal(out, next, b);
    let feed = next + width(b);
    out[feed] = b'\n';
}

pub fn copy(out: &mut [u8], at: usize, word: &[u8])
    requires { at + length word.now ≤ length out.old }
    ensures { out.new ≡ overlay out.old at word.now }
{
    out[at..at + word.len()].copy_from_slice(word);
}

// Whether `size` bytes have room from `at` on in a buffer of `len`.
fn room(len: usize, at: usize, size: usize) -> bool
    ensures { result ≡ leb (at + size) len }
{
    at <= len && size <= len - at
}
