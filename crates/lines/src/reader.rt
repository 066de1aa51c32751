// A line read byte by byte, in constant memory: no line longer than specs/Reading's longest_line means anything.
// Rests on `parse`.
ghost use Rattle.std.specs.Prelude.{◌≡◌};
ghost use Rattle.lines.specs.Reading.{fresh, pushed, command_in, is_empty};

use crate::command::parse;
use commands::Command;

// The bytes that are kept of a line, more than longest_line.
const LINE_ROOM: usize = 64;

// The bytes of a line so far: the first len of `line`, or more than there is room for.
#[derive(Clone, Copy)]
pub struct Reader {
    line: [u8; LINE_ROOM],
    len: usize,
    long: bool,
}

impl Reader {
    // No byte yet.
    pub fn new() -> Reader
        ensures { result ≡ fresh }
    {
        Reader {
            line: [0u8; LINE_ROOM],
            len: 0,
            long: false,
        }
    }

    // The next byte, which is no line feed.
    pub fn push(mut self, byte: u8) -> Reader
        ensures { result ≡ pushed self byte }
    {
        let len = self.len;
        if len < LINE_ROOM {
            self.line[len] = byte;
            self.len = len + 1;
        } else {
            self.long = true;
        }
        self
    }

    // What the bytes so far mean as a line.
    pub fn command(self) -> Option<Command>
        ensures { result ≡ command_in self }
    {
        if self.long {
            return None;
        }
        parse(self.line.get(..self.len)?)
    }

    // Whether no byte came since `new`.
    pub fn empty(self) -> bool
        ensures { result ≡ is_empty self }
    {
        self.len == 0
    }
}
