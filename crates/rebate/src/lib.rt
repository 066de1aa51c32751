// The yearly rebate on a total in cents, for every total. Whole cents and ten-thousandths of a cent are summed apart,
// so that nothing leaves 64 bits.
#![tactic(auto)]

ghost use Rattle.std.specs.Prelude.{◌≡◌, ◌-◌, ◌^◌, ◌<◌, length, drop};
ghost use Rattle.rebate.specs.Bands.{yearly, band_at};
ghost use Rattle.rebate.specs.Rebate.{inside, due_by, rounded, rebate_on};

// A band: where it starts, in cents, and its rate in hundredths of a percent.
#[derive(Clone, Copy)]
pub struct Band {
    pub start: u64,
    pub rate: u64,
}

const BAND_COUNT: usize = 4;

const BANDS: [Band; BAND_COUNT] = [
    Band { start: 0, rate: 0 },
    Band {
        start: 1000000,
        rate: 150,
    },
    Band {
        start: 5000000,
        rate: 250,
    },
    Band {
        start: 20000000,
        rate: 350,
    },
];

// Hundredths of a percent in the whole.
const WHOLE_RATE: u64 = 10000;

// What of an amount is above a limit.
fn above(amount: u64, limit: u64) -> u64
    ensures { result ≡ amount - limit }
{
    amount.saturating_sub(limit)
}

// Band i of the table.
fn band_at(i: usize) -> Band
    requires { i < length yearly.bands }
    ensures { result ≡ band_at i }
{
    BANDS[i]
}

// The part of an amount inside band i.
fn inside(amount: u64, i: usize) -> u64
    requires { i < length yearly.bands }
    ensures { result ≡ inside (drop i yearly.bands) amount }
{
    let part = above(amount, band_at(i).start);
    match BANDS.get(i + 1) {
        Some(next) => part - above(amount, next.start),
        None => part,
    }
}

// The rebate on an amount that is not negative.
fn on_amount(amount: u64) -> u64
    requires { amount < 2 ^ 63 }
    ensures { result ≡ rounded (due_by yearly.bands amount) }
{
    let mut cents: u64 = 0;
    let mut parts: u64 = 0;
    for i in 0..BAND_COUNT {
        let part = inside(amount, i);
        let rate = band_at(i).rate;
        cents += part / WHOLE_RATE * rate;
        parts += part % WHOLE_RATE * rate;
    }
    cents + (parts + WHOLE_RATE / 2) / WHOLE_RATE
}

// The rebate on a total.
pub fn rebate(total: i64) -> u64
    ensures { result ≡ rebate_on total }
{
    if total < 0 {
        0
    } else {
        on_amount(total as u64)
    }
}
