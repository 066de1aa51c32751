// A line read as a command: its fields one after the other.
// Rests on the commands of a letter and fields, crate commands.
ghost use Rattle.std.specs.Prelude.{◌≡◌, [], ◌∷◌, ◌==◌, position};
ghost use Rattle.decimals.specs.Ascii.{space};
ghost use Rattle.lines.specs.Grammar.{command_of, of_fields, fields_of, first_field, letter_of};

use commands::{Command, four_fields, three_fields};

// What the line means, given without its line feed; nothing where it is no command.
pub fn parse(line: &[u8]) -> Option<Command>
    ensures { result ≡ command_of line.now }
{
    match first_space(line) {
        Some(end) => after_letter(letter(&line[..end]), &line[end + 1..]),
        None => {
            if letter(line) == b'T' {
                Some(Command::List)
            } else {
                None
            }
        }
    }
}

// The command of a letter and the fields after it.
fn after_letter(letter: u8, rest: &[u8]) -> Option<Command>
    ensures { result ≡ of_fields ((letter ∷ []) ∷ fields_of rest.now) }
{
    let end = first_space(rest)?;
    after_field(letter, &rest[..end], &rest[end + 1..])
}

// The command of a letter, a field and the fields after them.
fn after_field(letter: u8, x: &[u8], rest: &[u8]) -> Option<Command>
    ensures { result ≡ of_fields ((letter ∷ []) ∷ x.now ∷ fields_of rest.now) }
{
    match first_space(rest) {
        Some(end) => after_fields(letter, x, &rest[..end], &rest[end + 1..]),
        None => three_fields(letter, x, rest),
    }
}

// The command of a letter, two fields and the fields after them, of which there may be one.
fn after_fields(letter: u8, x: &[u8], y: &[u8], rest: &[u8]) -> Option<Command>
    ensures { result ≡ of_fields ((letter ∷ []) ∷ x.now ∷ y.now ∷ fields_of rest.now) }
{
    match first_space(rest) {
        Some(_) => None,
        None => four_fields(letter, x, y, rest),
    }
}

// How long the first field is: up to the first space, or to the end.
pub fn first_field(bytes: &[u8]) -> usize
    ensures { result ≡ first_field bytes.now }
{
    first_space(bytes).unwrap_or(bytes.len())
}

fn first_space(bytes: &[u8]) -> Option<usize>
    ensures { result ≡ position (λ b. b == space) bytes.now }
{
    bytes.iter().position(|b| *b == b' ')
}

// The letter that a field is, or 0.
#[tactic(auto, using(crate::proofs::Splitting::letter_one, crate::proofs::Splitting::letter_none))]
fn letter(field: &[u8]) -> u8
    ensures { result ≡ letter_of field.now }
{
    match field {
        [letter] => *letter,
        _ => 0,
    }
}
