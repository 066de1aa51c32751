// The numbers of a line's fields. A field is a number in one way only: decimal, with no leading zeros.
// Rests on nothing.
#![tactic(auto)]

ghost use Rattle.std.specs.Prelude.{◌≡◌};
ghost use Rattle.numerals.specs.Numerals.{numeral, digits_after, plus, minus, signed_numeral, up_to, in64};

// The limits of a total or an amount, as specs/Numerals names them.
const GREATEST_TOTAL: u64 = 9223372036854775807;

const LEAST_TOTAL_SIZE: u64 = 9223372036854775808;

// The number that the field is, if it is one and at most `most`.
pub fn read_number(field: &[u8], most: u64) -> Option<u64>
    ensures { result ≡ up_to most (numeral field.now) }
{
    match field {
        [] => None,
        [b'0', more @ ..] => more.is_empty().then_some(0),
        [_, ..] => read_digits(field, most),
    }
}

// The same for bytes with leading zeros or none at all, which say 0.
fn read_digits(field: &[u8], most: u64) -> Option<u64>
    ensures { result ≡ up_to most (digits_after 0 field.now) }
{
    let mut value: u64 = 0;
    for &byte in field {
        if !byte.is_ascii_digit() {
            return None;
        }
        let digit = u64::from(byte - b'0');
        let next = value.checked_mul(10)?.checked_add(digit)?;
        if most < next {
            return None;
        }
        value = next;
    }
    Some(value)
}

// The total or the amount that the field is, if it is one.
pub fn read_signed(field: &[u8]) -> Option<i64>
    ensures { result ≡ in64 (signed_numeral field.now) }
{
    match field {
        [] => None,
        [b'-', size @ ..] => read_negative(size),
        [_, ..] => read_positive(field),
    }
}

fn read_positive(field: &[u8]) -> Option<i64>
    ensures { result ≡ in64 (plus (numeral field.now)) }
{
    let size = read_number(field, GREATEST_TOTAL)?;
    Some(size.cast_signed())
}

fn read_negative(field: &[u8]) -> Option<i64>
    ensures { result ≡ in64 (minus (numeral field.now)) }
{
    let size = read_number(field, LEAST_TOTAL_SIZE)?;
    if size == 0 {
        return None;
    }
    Some(size.wrapping_neg().cast_signed())
}
