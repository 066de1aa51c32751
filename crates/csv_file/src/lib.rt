// The exported file's header and rows: how many bytes a row takes, and both written into a caller's buffer.
// Kept beside `Display`, as printers are.
#![tactic(auto)]

ghost use Rattle.std.specs.Prelude.{◌+◌, ◌≤◌, ◌≡◌, length};
ghost use Rattle.lists.specs.Parts.{overlay};
ghost use Rattle.csv_file.specs.Csv.{header, header_size, csv_row, longest_row};
ghost use Rattle.csv_file.specs.Units.{units_of, units_text};

use decimals::{Decimal, digit_count, signed, spell, spell_decimal, width};
use printers::copy;

// How many bytes the header takes, and how many a row takes at most.
pub const HEADER_SIZE: usize = 15;

pub const LONGEST_ROW: usize = 34;

// Writes the header at the start.
pub fn write_header(out: &mut [u8])
    requires { header_size ≤ length out.old }
    ensures { out.new ≡ overlay out.old 0 header }
{
    copy(out, 0, b"account,total\r\n");
}

// How many bytes a row takes: an account, a comma, units with a point and two decimals, CR LF.
pub fn row_size(account: u32, total: i64) -> usize
    ensures { (result ≡ length (csv_row account total)) × (result ≤ longest_row) }
{
    let first = digit_count(account as u64);
    let second = width(units(signed(total))) + 3;
    first + 1 + second + 2
}

// Writes a row, and answers where the next one starts.
pub fn write_row(out: &mut [u8], at: usize, account: u32, total: i64) -> usize
    requires { at + length (csv_row account total) ≤ length out.old }
    ensures { (out.new ≡ overlay out.old at (csv_row account total))
        × (result ≡ at + length (csv_row account total)) }
{
    let n = account as u64;
    let k = digit_count(n);
    spell(out, at, k, n);
    let comma = at + k;
    out[comma] = b',';
    let end = write_total(out, comma + 1, signed(total));
    out[end] = b'\r';
    out[end + 1] = b'\n';
    end + 2
}

// Writes so many cents in units with two decimals, and answers where they end.
fn write_total(out: &mut [u8], at: usize, d: Decimal) -> usize
    requires { at + length (units_text d) ≤ length out.old }
    ensures { (out.new ≡ overlay out.old at (units_text d))
        × (result ≡ at + length (units_text d)) }
{
    let whole = units(d);
    let point = at + width(whole);
    spell_decimal(out, at, whole);
    out[point] = b'.';
    let decimals = point + 1;
    spell(out, decimals, 2, d.size);
    decimals + 2
}

// The whole units of so many cents, with their sign: also where they are 0.
fn units(d: Decimal) -> Decimal
    ensures { result ≡ units_of d }
{
    Decimal {
        size: d.size / 100,
        ..d
    }
}
