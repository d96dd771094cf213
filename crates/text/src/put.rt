// A line of text. It is put together in a buffer of its own and written whole at its end, so that it is one write, but for a text that is printed as it
// stands and a name that is longer than the buffer. What does not fit is cut at the end of the buffer: the longest line here, that of 17 words of ten
// digits, has 222 bytes.
ghost use Rattle.std.specs.Prelude.{◌≤◌};

use arrayvec::ArrayVec;
use std::fmt;
use std::fmt::{Display, Formatter, Write};

// The descriptors that every program has: its text, and what is wrong. Numbers and no enum: io::write_all takes a descriptor by its number.
pub const STDOUT: i32 = 1;

pub const STDERR: i32 = 2;

// How many bytes a line has room for, its newline among them.
const ROOM: usize = 256;

// Where the second column starts: after two spaces and a first column of 18 characters.
const SECOND: usize = 20;

// Where a name goes on in the next line: where no other line begins, so that no part of it is taken for one.
const ASIDE: usize = 14;

// The spaces that a line is filled with, as many as it has room for: a part of them is put at once.
const SPACES: [u8; ROOM] = [b' '; ROOM];

// A line that is being put together.
#[derive(Drop)]
pub(crate) struct Line {
    bytes: ArrayVec<u8, ROOM>,
    // the descriptor that it goes to
    fd: i32,
    // where in the next line a name goes on that does not fit; in none, it goes on in the same line
    aside: Option<usize>,
    // whether all of it that was written so far could be written: what prints answers this
    good: bool,
}

impl Line {
    fn to(fd: i32, aside: Option<usize>) -> Line {
        Line {
            bytes: ArrayVec::new(),
            fd,
            aside,
            good: true,
        }
    }

    // A line of the text.
    pub(crate) fn new() -> Line {
        Line::to(STDOUT, None)
    }

    // A line of the text whose name goes on in the next line where it does not fit.
    pub(crate) fn wrapping() -> Line {
        Line::to(STDOUT, Some(ASIDE))
    }

    // A line about what is wrong.
    pub(crate) fn wrong() -> Line {
        Line::to(STDERR, None)
    }

    // A line of two columns, with its first column.
    pub(crate) fn labelled(text: &[u8]) -> Line {
        let mut line = Line::new();
        line.bytes(b"  ");
        line.bytes(text);
        line.pad();
        line
    }

    pub(crate) fn len(&self) -> usize
        ensures { result ≤ 256 }
    {
        self.bytes.len()
    }

    // Bytes as they stand: a caller's label and a file's name need not be UTF-8.
    pub(crate) fn bytes(&mut self, text: &[u8]) {
        let n = text.len().min(self.bytes.remaining_capacity());
        let _ = self.bytes.try_extend_from_slice(&text[..n]);
    }

    // A few bytes of a known number: all, or none where they don't fit. They are put as one, where `bytes` would count them.
    pub(crate) fn few<const N: usize>(&mut self, text: [u8; N]) {
        let _ = self.bytes.try_extend_from_slice(&text);
    }

    // What is printed of a value, as `write!` asks for it: a line takes all, so there is nothing to answer.
    pub(crate) fn write_fmt<D: Display + Drop>(&mut self, value: D) {
        let _ = self.write(value);
    }

    // Spaces up to a place, and none where the line is past it.
    pub(crate) fn fill(&mut self, end: usize) {
        let n = end.saturating_sub(self.len()).min(ROOM);
        self.bytes(&SPACES[..n]);
    }

    // The spaces after the first column.
    pub(crate) fn pad(&mut self) {
        self.fill(SECOND);
    }

    // Writes what was put so far.
    fn write_out(&mut self) {
        self.good &= io::write_all(self.fd, self.bytes.as_slice());
    }

    // Writes what was put so far, with no newline, and goes on at the start of the buffer.
    pub(crate) fn write_part(&mut self) {
        self.write_out();
        self.bytes.clear();
    }

    // The newline, in the last place of the buffer where the line was cut.
    fn newline(&mut self) {
        self.bytes.truncate(ROOM - 1);
        self.bytes(b"\n");
    }

    // Makes room for more of a name.
    pub(crate) fn make_room(&mut self) {
        match self.aside {
            Some(place) => {
                self.newline();
                self.write_part();
                self.fill(place);
            }
            None => self.write_part(),
        }
    }

    // Ends the line, and answers whether all of it was written. The line is lent, and not passed: it would be copied.
    pub(crate) fn print(&mut self) -> bool {
        self.newline();
        self.write_out();
        self.good
    }
}

impl Write for Line {
    fn write_str(&mut self, text: &str) -> fmt::Result {
        self.bytes(text.as_bytes());
        Ok(())
    }
}

// A line of the text.
pub(crate) fn print_line<D: Display + Drop>(text: D) -> bool {
    let mut line = Line::new();
    write!(line, "{text}");
    line.print()
}

// A line of a text that may be longer than the buffer: it is written as it stands.
pub(crate) fn whole_line(text: &[u8]) -> bool {
    io::write_all(STDOUT, text) & io::write_all(STDOUT, b"\n")
}

// So many of a thing: the word with an s, but for one.
#[derive(Clone, Copy)]
pub(crate) struct Many(pub u64, pub &'static str);

impl Display for Many {
    fn fmt<W: Write>(&self, f: &mut Formatter<W>) -> fmt::Result {
        let Many(n, one) = self;
        let plural = if *n == 1 { "" } else { "s" };
        write!(f, "{n} {one}{plural}")
    }
}
