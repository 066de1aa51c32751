// Numbers written in decimal into a caller's buffer: their sign and size, how many bytes they take, and their digits.
// Kept beside `Display`, as printers are.
#![tactic(auto)]

ghost use Rattle.std.specs.Prelude.{◌+◌, ◌≤◌, ◌≡◌, length, pos};
ghost use Rattle.lists.specs.Parts.{overlay};
ghost use Rattle.decimals.specs.Decimals.{digits, digit_count, most_digits};
ghost use Rattle.decimals.specs.Signs.{sign_of, decimal_text};

// A number to be written in decimal: its sign and its size.
// Kept: the sign is no flag that says whether the size counts; both always do.
#[derive(Clone, Copy)]
pub struct Decimal {
    pub minus: bool,
    pub size: u64,
}

pub fn spell_decimal(out: &mut [u8], at: usize, d: Decimal)
    requires { at + length (decimal_text d) ≤ length out.old }
    ensures { out.new ≡ overlay out.old at (decimal_text d) }
{
    let k = digit_count(d.size);
    if d.minus {
        out[at] = b'-';
        spell(out, at + 1, k, d.size);
    } else {
        spell(out, at, k, d.size);
    }
}

// Writes the last k digits of n.
pub fn spell(out: &mut [u8], at: usize, k: usize, n: u64)
    requires { at + k ≤ length out.old }
    ensures { out.new ≡ overlay out.old at (digits k n) }
{
    let mut rest = n;
    for i in (0..k).rev() {
        out[at + i] = b'0' + (rest % 10) as u8;
        rest /= 10;
    }
}

// How many bytes a number takes.
pub fn width(d: Decimal) -> usize
    ensures { (result ≡ length (decimal_text d)) × (result ≤ most_digits + 1) }
{
    let k = digit_count(d.size);
    if d.minus { k + 1 } else { k }
}

// How many digits n has.
pub fn digit_count(n: u64) -> usize
    ensures { (result ≡ digit_count n) × (result ≤ most_digits) }
{
    match n.checked_ilog10() {
        Some(k) => k as usize + 1,
        None => 1,
    }
}

pub fn unsigned(n: u64) -> Decimal
    ensures { result ≡ sign_of (pos n) }
{
    Decimal {
        minus: false,
        size: n,
    }
}

pub fn signed(x: i64) -> Decimal
    ensures { result ≡ sign_of x }
{
    Decimal {
        minus: x < 0,
        size: x.unsigned_abs(),
    }
}
