// A command of its letter and fields: what each field has to be is a definition of specs/, and the functions here equal
// it. Rests on the numbers of crate numerals.
#![tactic(auto)]

ghost use Rattle.std.specs.Prelude.{◌≡◌};
ghost use Rattle.std.specs.Option.{option_zip};
ghost use Rattle.numerals.specs.Numerals.{numeral, up_to};
ghost use Rattle.commands.specs.Commands.{three_fields, four_fields, open_command, insert_command, delete_command, lookup_command, post_command, steps_command, small_of, account_of};

use numerals::{read_number, read_signed};

// What a line asks for.
#[derive(Clone, Copy)]
pub enum Command {
    // n, b, M
    Open(u64, u64, u64),
    // w, account, total
    Insert(u64, u32, i64),
    // w, account
    Delete(u64, u32),
    // w, account
    Lookup(u64, u32),
    // w, account, amount
    Post(u64, u32, i64),
    // w, k
    Steps(u64, u64),
    List,
}

// The limits of specs/Commands, by the same names: the greatest w, n, b and M; of accounts; of steps.
pub const GREATEST_SMALL: u64 = 65535;

pub const GREATEST_ACCOUNT: u64 = 4294967295;

const LEAST_STEPS: u64 = 1;

const GREATEST_STEPS: u64 = 9999;

// The command of a letter and two fields.
#[tactic(auto, using(crate::proofs::Letters::letters_of_three))]
pub fn three_fields(letter: u8, x: &[u8], y: &[u8]) -> Option<Command>
    ensures { result ≡ three_fields letter x.now y.now }
{
    match letter {
        b'D' => delete(x, y),
        b'L' => lookup(x, y),
        b'S' => steps(x, y),
        _ => None,
    }
}

// The command of a letter and three fields.
#[tactic(auto, using(crate::proofs::Letters::letters_of_four))]
pub fn four_fields(letter: u8, x: &[u8], y: &[u8], z: &[u8]) -> Option<Command>
    ensures { result ≡ four_fields letter x.now y.now z.now }
{
    match letter {
        b'O' => open(x, y, z),
        b'I' => insert(x, y, z),
        b'P' => post(x, y, z),
        _ => None,
    }
}

fn open(x: &[u8], y: &[u8], z: &[u8]) -> Option<Command>
    ensures { result ≡ open_command x.now y.now z.now }
{
    let (n, b) = read_pair(x, y, GREATEST_SMALL)?;
    let m = read_number(z, GREATEST_SMALL)?;
    Some(Command::Open(n, b, m))
}

fn insert(x: &[u8], y: &[u8], z: &[u8]) -> Option<Command>
    ensures { result ≡ insert_command x.now y.now z.now }
{
    let (w, account) = worker_and_account(x, y)?;
    let total = read_signed(z)?;
    Some(Command::Insert(w, account, total))
}

fn delete(x: &[u8], y: &[u8]) -> Option<Command>
    ensures { result ≡ delete_command x.now y.now }
{
    let (w, account) = worker_and_account(x, y)?;
    Some(Command::Delete(w, account))
}

fn lookup(x: &[u8], y: &[u8]) -> Option<Command>
    ensures { result ≡ lookup_command x.now y.now }
{
    let (w, account) = worker_and_account(x, y)?;
    Some(Command::Lookup(w, account))
}

fn post(x: &[u8], y: &[u8], z: &[u8]) -> Option<Command>
    ensures { result ≡ post_command x.now y.now z.now }
{
    let (w, account) = worker_and_account(x, y)?;
    let amount = read_signed(z)?;
    Some(Command::Post(w, account, amount))
}

fn steps(x: &[u8], y: &[u8]) -> Option<Command>
    ensures { result ≡ steps_command x.now y.now }
{
    let (w, k) = read_pair(x, y, GREATEST_STEPS)?;
    if k < LEAST_STEPS {
        return None;
    }
    Some(Command::Steps(w, k))
}

// A worker and an account.
fn worker_and_account(x: &[u8], y: &[u8]) -> Option<(u64, u32)>
    ensures { result ≡ option_zip (small_of x.now) (account_of y.now) }
{
    let (w, account) = read_pair(x, y, GREATEST_ACCOUNT)?;
    Some((w, account as u32))
}

// The first number of a command and the one after it, which is at most `most`.
pub fn read_pair(x: &[u8], y: &[u8], most: u64) -> Option<(u64, u64)>
    ensures { result ≡ option_zip (small_of x.now) (up_to most (numeral y.now)) }
{
    let first = read_number(x, GREATEST_SMALL)?;
    let second = read_number(y, most)?;
    Some((first, second))
}
