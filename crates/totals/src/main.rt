// The program `totals`: lines from standard input, what they are met with to standard output. What a line is met with
// is the business of the crate driver; here are the lent words and lists, and reading and writing.
#![tactic(auto)]

use lines::Reader;
use std::io::{Read, Stdin};

// What is lent to the driver: the table's words, the lists of a listing, and the output, which has room for the longest
// text twice.
#[derive(Drop)]
struct Lent {
    words: [u64; 8192],
    accounts: [u32; 4096],
    totals: [i64; 4096],
    out: [u8; 262144],
}

// Writes all bytes to standard output, or says on standard error why not.
fn write(rt: &(impl Print + Eprint), bytes: &[u8]) -> Option<()> {
    if let Err(error) = rt.write_all(bytes) {
        let _ = eprintln!(rt; "write: {error}");
        return None;
    }
    Some(())
}

impl Lent {
    // Answers a block of input, a part at a time, so that the output always has room; each part's output is written at
    // once. The reader of the line that is not ended yet, or nothing where an output could not be written.
    fn take(
        &mut self,
        rt: &(impl Print + Eprint),
        mut reader: Reader,
        block: &[u8],
    ) -> Option<Reader> {
        let mut rest = block;
        // Kept: no index is counted, what is left is what feeding did not take.
        while !rest.is_empty() {
            let fed = driver::feed(
                &mut self.words,
                &mut self.accounts,
                &mut self.totals,
                &mut self.out,
                reader,
                rest,
            );
            reader = fed.reader;
            write(rt, &self.out[..fed.used])?;
            rest = &rest[fed.taken..];
        }
        Some(reader)
    }

    // Reads once, and answers what came; nothing at the end of the input, which ends a line that has no line feed, or
    // where it could not be read or written.
    fn turn(
        &mut self,
        rt: &(impl Print + Eprint),
        mut stdin: Stdin,
        block: &mut [u8],
        reader: Reader,
    ) -> Option<Reader> {
        match stdin.read(block) {
            Err(error) => {
                let _ = eprintln!(rt; "read: {error}");
                None
            }
            Ok(0) => {
                if !reader.empty() {
                    self.take(rt, reader, b"\n");
                }
                None
            }
            Ok(n) => self.take(rt, reader, &block[..n]),
        }
    }
}

// A proved loop has to end, and nothing says that the input does. So the loop has a number of turns, one that no run
// uses up.
fn main(rt: HostRuntime) {
    let mut lent = Lent {
        words: [0; 8192],
        accounts: [0; 4096],
        totals: [0; 4096],
        out: [0; 262144],
    };
    let mut block = [0u8; 65536];
    let mut reader = Reader::new();
    for _ in 0..u64::MAX {
        let Some(next) = lent.turn(&rt, rt.stdin(), &mut block, reader) else {
            return;
        };
        reader = next;
    }
}
