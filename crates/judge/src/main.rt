// The program `judge`: a log from standard input, what is printed for it to standard output. What that is, is the
// business of the crate loglines; here are reading and writing.
#![tactic(auto)]

use loglines::{Feeding, begin, conclude, feed};
use std::io::{Read, Stdin};

// Prints what answers the whole input.
fn end(rt: &(impl Print + Eprint), feeding: Feeding) {
    let mut out = [0u8; 512];
    let n = conclude(feeding, &mut out);
    if let Err(error) = rt.write_all(&out[..n]) {
        let _ = eprintln!(rt; "write: {error}");
    }
}

// Reads once, and takes what came; nothing at the end of the input, which is answered then, or where it could not be
// read.
fn turn(
    rt: &(impl Print + Eprint),
    mut stdin: Stdin,
    feeding: Feeding,
    block: &mut [u8],
) -> Option<Feeding> {
    match stdin.read(block) {
        Err(error) => {
            let _ = eprintln!(rt; "read: {error}");
            None
        }
        Ok(0) => {
            end(rt, feeding);
            None
        }
        Ok(n) => Some(feed(feeding, &block[..n])),
    }
}

// A proved loop has to end, and nothing says that the input does. So the loop has a number of turns, one that no run
// uses up.
fn main(rt: HostRuntime) {
    let mut block = [0u8; 65536];
    let mut feeding = begin();
    for _ in 0..u64::MAX {
        let Some(next) = turn(&rt, rt.stdin(), feeding, &mut block) else {
            return;
        };
        feeding = next;
    }
}
