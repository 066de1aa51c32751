// Input of any length, a part at a time: each line that it ends is answered. Depends on responses for the answers, on
// lines for the reader, and on outputs for the room.
#![tactic(auto)]

ghost use Rattle.std.specs.Prelude.{◌≡◌};
ghost use Rattle.outputs.specs.Outputs.{state_of};
ghost use Rattle.driver.specs.Feeding.{feeding_of, fed};

use lines::Reader;
use outputs::roomy;
use responses::answer;

// What feeding came to: the reader of the line that is not ended yet, the bytes of `out` that are used, and the bytes
// taken.
#[derive(Clone, Copy)]
pub struct Fed {
    pub reader: Reader,
    pub used: usize,
    pub taken: usize,
}

// Takes bytes of input, and prints into `out`, from its start on, what each line that they end is met with; stops where
// the next line's text might have no room.
pub fn feed(
    words: &mut [u64],
    accounts: &mut [u32],
    totals: &mut [i64],
    out: &mut [u8],
    reader: Reader,
    input: &[u8],
) -> Fed
    ensures { feeding_of
        (state_of words.new accounts.new totals.new out.new result.used)
        result.reader result.taken
        ≡ fed (feeding_of
        (state_of words.old accounts.old totals.old out.old 0)
        reader 0) input.now }
{
    let mut reader = reader;
    let mut used: usize = 0;
    for (i, &byte) in input.iter().enumerate() {
        if !roomy(out.len(), used) {
            return Fed {
                reader,
                used,
                taken: i,
            };
        }
        if byte == b'\n' {
            used = answer(words, accounts, totals, out, used, reader.command());
            reader = Reader::new();
        } else {
            reader = reader.push(byte);
        }
    }
    Fed {
        reader,
        used,
        taken: input.len(),
    }
}
