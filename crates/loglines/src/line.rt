// A line of a log: the settings, or an operation's eight fields. Rests on the fields.
ghost use Rattle.std.specs.Prelude.{◌≡◌, take};
ghost use Rattle.lines.specs.Grammar.{fields_of};
ghost use Rattle.loglines.specs.Lines.{settings_line, operation_line, operation_from};

use crate::field::read_field;
use commands::{GREATEST_SMALL, read_pair};
use lines::first_field;
use logs::OPERATION_WORDS;

// The fields of an operation that another follows.
const FOLLOWED: usize = 7;

// Capacity and depth.
pub fn read_settings(line: &[u8]) -> Option<(u64, u64)>
    ensures { result ≡ settings_line line.now }
{
    let end = first_field(line);
    if line.len() <= end {
        return None;
    }
    let next = end + 1;
    let second = &line[next..];
    if first_field(second) < second.len() {
        return None;
    }
    read_pair(&line[..end], second, GREATEST_SMALL)
}

// An operation's words.
pub fn read_operation(line: &[u8]) -> Option<[u64; OPERATION_WORDS]>
    ensures { result ≡ operation_line line.now }
{
    let mut words = [0u64; OPERATION_WORDS];
    let mut from: usize = 0;
    for k in 0..FOLLOWED {
        let rest = &line[from..];
        let end = first_field(rest);
        if rest.len() <= end {
            return None;
        }
        words[k] = read_field(k, &rest[..end])?;
        from = from + end + 1;
    }
    last_field(&line[from..], words)
}

// The last field of an operation, behind the words of the others.
fn last_field(rest: &[u8], mut words: [u64; OPERATION_WORDS]) -> Option<[u64; OPERATION_WORDS]>
    ensures { result ≡ operation_from (take 7 words) 7 (fields_of rest.now) }
{
    if first_field(rest) < rest.len() {
        return None;
    }
    words[FOLLOWED] = read_field(FOLLOWED, rest)?;
    Some(words)
}
