// What is held of an input so far: the line that is not ended, where reading stands, and the operations' words, all by
// value and of constant size. Rests on the lines.
ghost use Rattle.std.specs.Prelude.{◌+◌, ◌≤◌, ◌≡◌, length};
ghost use Rattle.lists.specs.Parts.{overlay};
ghost use Rattle.loglines.specs.Holding.{no_line, pushed, line_in, kept_with, next_line, with_settings, with_operation, with_line, begin, took, fed, ended};

use crate::line::{read_operation, read_settings};
use logs::OPERATION_WORDS;

// The bytes that are kept of a line, and the words of operations, as specs/Holding names them.
const LINE_ROOM: usize = 168;

pub const KEPT_WORDS: usize = 104;

// The first bytes of a line so far: len of them.
#[derive(Clone, Copy)]
pub struct Line {
    bytes: [u8; LINE_ROOM],
    len: usize,
}

// The words of the operations so far, one after the other; `filled` is how many.
#[derive(Clone, Copy)]
pub struct Kept {
    pub filled: usize,
    pub words: [u64; KEPT_WORDS],
}

// The lines so far, up to the first that is none of a log; whether that one came; the settings; the operations.
#[derive(Clone, Copy)]
pub struct Progress {
    pub lines: u64,
    pub bad: bool,
    pub capacity: u64,
    pub depth: u64,
    pub kept: Kept,
}

// The line that is not ended yet, and the progress before it.
#[derive(Clone, Copy)]
pub struct Feeding {
    line: Line,
    progress: Progress,
}

impl Line {
    fn new() -> Line
        ensures { result ≡ no_line }
    {
        Line {
            bytes: [0u8; LINE_ROOM],
            len: 0,
        }
    }

    // The next byte, which is no line feed.
    fn push(mut self, byte: u8) -> Line
        ensures { result ≡ pushed self byte }
    {
        let len = self.len;
        if len < LINE_ROOM {
            self.bytes[len] = byte;
            self.len = len + 1;
        }
        self
    }
}

impl Kept {
    // One operation more, where there is room.
    fn push(mut self, row: [u64; OPERATION_WORDS]) -> Kept
        ensures { result ≡ kept_with self row }
    {
        let filled = self.filled;
        if KEPT_WORDS - OPERATION_WORDS < filled {
            return self;
        }
        let mut words = self.words;
        store(&mut words, filled, &row);
        Kept {
            filled: filled + OPERATION_WORDS,
            words,
        }
    }
}

fn store(words: &mut [u64], at: usize, row: &[u64])
    requires { at + length row.now ≤ length words.old }
    ensures { words.new ≡ overlay words.old at row.now }
{
    words[at..at + row.len()].copy_from_slice(row);
}

// The lines with one more, counted up to the greatest word.
fn next_line(lines: u64) -> u64
    ensures { result ≡ next_line lines }
{
    lines.saturating_add(1)
}

impl Progress {
    fn settle(mut self, read: Option<(u64, u64)>) -> Progress
        ensures { result ≡ with_settings self read }
    {
        self.lines = 1;
        let Some((capacity, depth)) = read else {
            self.bad = true;
            return self;
        };
        self.bad = false;
        self.capacity = capacity;
        self.depth = depth;
        self
    }

    fn add(mut self, read: Option<[u64; OPERATION_WORDS]>) -> Progress
        ensures { result ≡ with_operation self read }
    {
        self.lines = next_line(self.lines);
        let Some(words) = read else {
            self.bad = true;
            return self;
        };
        let kept = self.kept;
        Progress {
            lines: self.lines,
            bad: false,
            capacity: self.capacity,
            depth: self.depth,
            kept: kept.push(words),
        }
    }

    // The next line, without its line feed.
    fn read(self, line: &[u8]) -> Progress
        ensures { result ≡ with_line self line.now }
    {
        if self.bad {
            return self;
        }
        if self.lines == 0 {
            return self.settle(read_settings(line));
        }
        self.add(read_operation(line))
    }
}

// Nothing of the input yet.
pub fn begin() -> Feeding
    ensures { result ≡ begin }
{
    let kept = Kept {
        filled: 0,
        words: [0u64; KEPT_WORDS],
    };
    Feeding {
        line: Line::new(),
        progress: Progress {
            lines: 0,
            bad: false,
            capacity: 0,
            depth: 0,
            kept,
        },
    }
}

impl Feeding {
    // The progress with the line that was not ended.
    fn end_line(self) -> Progress
        ensures { result ≡ with_line self.progress (line_in self.line) }
    {
        let progress = self.progress;
        let line = self.line;
        let bytes = line.bytes;
        let all = &bytes[..];
        let len = line.len;
        if all.len() < len {
            return progress.read(all);
        }
        progress.read(&all[..len])
    }

    // The next byte.
    fn take(self, byte: u8) -> Feeding
        ensures { result ≡ took self byte }
    {
        if byte == b'\n' {
            return Feeding {
                line: Line::new(),
                progress: self.end_line(),
            };
        }
        let line = self.line;
        let progress = self.progress;
        Feeding {
            line: line.push(byte),
            progress,
        }
    }

    // The progress at the end of the input, which ends a line that has a byte.
    pub fn end(self) -> Progress
        ensures { result ≡ ended self }
    {
        let line = self.line;
        if line.len == 0 {
            return self.progress;
        }
        self.end_line()
    }
}

// The next part of the input.
pub fn feed(feeding: Feeding, input: &[u8]) -> Feeding
    ensures { result ≡ fed feeding input.now }
{
    let mut feeding = feeding;
    for &byte in input {
        feeding = feeding.take(byte);
    }
    feeding
}
