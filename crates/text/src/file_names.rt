// A file's name as it is printed. A name is any bytes: a control character, what is no UTF-8, what turns a line round and a space at an end are escaped,
// so that a name is never taken for a line of the text, and a long name goes on in the next line.
ghost use Rattle.std.specs.Prelude.{◌≡◌, ◌≤◌, ◌<◌, length};
ghost use Rattle.text.specs.FileNames.{is_input};

use crate::put::Line;

// The most bytes of a line that has a name.
const WIDTH: usize = 100;

const DIGITS: [u8; 16] = *b"0123456789abcdef";

// A hexadecimal digit, of a number below 16.
fn digit(n: u8) -> u8
    requires { n < 16 }
{
    DIGITS[usize::from(n)]
}

// Whether a byte is a character that is printed as it stands.
fn is_plain(b: u8) -> bool {
    matches!(b, 0x20..=0x7e) && b != b'\\'
}

// How many bytes at the start of what is left of a name are one character that is printed as it stands, and 0 where the byte there is escaped: it is a
// control character's, or no character's in UTF-8, or that of one that ends a line or turns its direction (U+2028 to U+202E, U+2066 to U+2069).
fn shown(left: &[u8]) -> usize
    ensures part { result ≤ length left.now }
    ensures most { result ≤ 4 }
{
    match left {
        [0x20..=0x7e, ..] => 1,
        [0xc2, 0xa0..=0xbf, ..] | [0xc3..=0xdf, 0x80..=0xbf, ..] => 2,
        [0xe0, 0xa0..=0xbf, 0x80..=0xbf, ..] => 3,
        [0xe2, 0x80, 0xa8..=0xae, ..] | [0xe2, 0x81, 0xa6..=0xa9, ..] => 0,
        [0xed, 0x80..=0x9f, 0x80..=0xbf, ..] => 3,
        [0xe1..=0xec | 0xee..=0xef, 0x80..=0xbf, 0x80..=0xbf, ..] => 3,
        [0xf0, 0x90..=0xbf, 0x80..=0xbf, 0x80..=0xbf, ..] => 4,
        [0xf1..=0xf3, 0x80..=0xbf, 0x80..=0xbf, 0x80..=0xbf, ..] => 4,
        [0xf4, 0x80..=0x8f, 0x80..=0xbf, 0x80..=0xbf, ..] => 4,
        _ => 0,
    }
}

// Whether a name stands for standard input.
pub fn is_input(name: &[u8]) -> bool
    ensures { result ≡ is_input name.now }
{
    name == b"-".as_slice()
}

impl Line {
    // A name.
    pub(crate) fn name(&mut self, name: &[u8]) {
        if name.is_empty() {
            write!(self, "''");
        } else if is_input(name) {
            write!(self, "standard input");
        } else {
            self.pieces(name);
        }
    }

    // The pieces of a name: a space at an end of it is escaped.
    fn pieces(&mut self, name: &[u8]) {
        let space = b" ";
        let name = match name.strip_prefix(space) {
            Some(after) => {
                self.piece(b' ', b"");
                after
            }
            None => name,
        };
        match name.strip_suffix(space) {
            Some(before) => {
                self.inside(before);
                self.piece(b' ', b"");
            }
            None => self.inside(name),
        }
    }

    // What of a name is between the spaces at its ends. By bytes, and not by the library's characters, which would read each part of a name twice.
    fn inside(&mut self, name: &[u8]) {
        let mut left = name;
        while let [first, ..] = left {
            // as many plain bytes as have room at once, or one character
            let plain = if is_plain(*first) {
                self.plain(left)
            } else {
                0
            };
            let n = match plain {
                0 => {
                    let character = &left[..shown(left)];
                    self.piece(*first, character);
                    character.len().max(1)
                }
                n => n,
            };
            left = &left[n..];
        }
    }

    // As many as have room of the plain bytes at the start of what is left of a name, and how many: they are put together.
    fn plain(&mut self, left: &[u8]) -> usize
        ensures { result ≤ length left.now }
    {
        let room = left.len().min(WIDTH.saturating_sub(self.len()));
        let n = left[..room]
            .iter()
            .position(|b| !is_plain(*b))
            .unwrap_or(room);
        self.bytes(&left[..n]);
        n
    }

    // A character that is printed as it stands, or, where there is none, a byte that is escaped, with room made for it. As bytes, and not by `write!`: a
    // name may have many.
    fn piece(&mut self, first: u8, character: &[u8])
        requires { length character.now ≤ 4 }
    {
        let width = match character {
            [] => 4,
            [b'\\'] => 2,
            _ => character.len(),
        };
        if WIDTH < self.len() + width {
            self.make_room();
        }
        match character {
            [] => self.few([b'\\', b'x', digit(first / 16), digit(first % 16)]),
            [b'\\'] => self.few(*b"\\\\"),
            _ => self.bytes(character),
        }
    }
}

// A line that has a name in it: what stands before the name, and the name.
pub(crate) fn name_line(mut line: Line, before: &str, name: &[u8]) -> bool {
    write!(line, "{before}");
    line.name(name);
    line.print()
}

// The heading of a trace's section.
pub fn trace_heading(name: &[u8]) -> bool {
    name_line(Line::wrapping(), "Trace ", name)
}
