// The place of an account, whose first bits choose its bucket, and the way back from a place to its account. Each takes
// any number, and each of the two on 32 bits is the other's inverse.
#![tactic(auto)]

ghost use Rattle.std.specs.Prelude.{◌≡◌};
ghost use Rattle.machine.specs.Sequential.{place, account_at};

// The factors of the two: their product is 1 modulo 2^32.
const PLACE_FACTOR: u64 = 2654435761;

const ACCOUNT_FACTOR: u64 = 244002641;

// The place of the account in a word. The last 32 bits count: only words from elsewhere have more.
pub fn place_in(word: u64) -> u64
    ensures { result ≡ place word }
{
    word % 4294967296 * PLACE_FACTOR % 4294967296
}

// The place of an account.
pub fn place(account: u32) -> u32
    ensures { result ≡ place account }
{
    place_in(account as u64) as u32
}

// The account whose place this is.
pub fn account_at(place: u32) -> u32
    ensures { result ≡ account_at place }
{
    ((place as u64) * ACCOUNT_FACTOR % 4294967296) as u32
}
