// The lines of a text, put into a trace one after the other by the trace's own encoder.
ghost use Rattle.std.specs.Prelude.{◌≤◌, length};
ghost use Rattle.std.specs.Option.{unwrap_or};

use crate::line::{Said, line_says};
use ring::Action;
use rules::state::Size;
use trace::{put_action, put_header};

// Why a line is refused.
#[derive(Clone, Copy, Debug, PartialEq, Eq)]
pub enum Why {
    // it says nothing that a text may say
    Unknown,
    // the set-up is not the first thing said, or stands twice
    Order,
    // the set-up is out of range
    Sizes,
    // the trace would be too long
    Length,
}

impl Why {
    // In words.
    pub fn words(self) -> &'static [u8] {
        match self {
            Why::Unknown =>
                b"fresh N S MODE, begin VALUE (0 to 4294967295), write or read is wanted",
            Why::Order => b"fresh N S MODE is wanted first, and once",
            Why::Sizes => b"refused 8 SIZES: N is 2 to 16, S 1 to 16, mode overwrite or stop",
            Why::Length => b"refused 6 MARK: the trace is longer than 65536 bytes",
        }
    }
}

// Why a text is refused.
#[derive(Clone, Copy, Debug, PartialEq, Eq)]
pub enum Fault {
    // a line is, which has this number
    Line(Why, u64),
    // no line says anything
    Nothing,
}

// A trace in the bytes that are lent, and the place after what was put into it: none before its set-up.
#[derive(Drop)]
struct TraceBytes<'a> {
    out: &'a mut [u8],
    end: Option<usize>,
    ghost within: { unwrap_or end 0 ≤ length out.now },
}

impl<'a> TraceBytes<'a> {
    fn set_up(&mut self, size: Size) -> Result<(), Why> {
        if self.end.is_some() {
            return Err(Why::Order);
        }
        let end = put_header(self.out, size.pages, size.slots, size.mode).map_err(|_| Why::Sizes)?;
        self.end = Some(end);
        Ok(())
    }

    fn act(&mut self, action: Action) -> Result<(), Why> {
        let at = self.end.ok_or(Why::Order)?;
        let end = put_action(self.out, at, action).map_err(|_| Why::Length)?;
        self.end = Some(end);
        Ok(())
    }

    fn line(&mut self, line: &[u8]) -> Result<(), Why> {
        match line_says(line)? {
            None => Ok(()),
            Some(Said::Fresh(size)) => self.set_up(size),
            Some(Said::Act(action)) => self.act(action),
        }
    }
}

// The trace of a text, in room for the longest one.
pub fn write_text<'a>(text: &[u8], out: &'a mut [u8]) -> Result<&'a [u8], Fault> {
    let mut trace = TraceBytes { out, end: None };
    let mut number: u64 = 0;
    let mut left = text;
    // A cursor, and no `split`, by which a million empty lines took twice the time.
    while !left.is_empty() {
        number = number.wrapping_add(1);
        let end = left.iter().position(|b| *b == b'\n').unwrap_or(left.len());
        trace
            .line(&left[..end])
            .map_err(|why| Fault::Line(why, number))?;
        left = if end < left.len() {
            &left[end + 1..]
        } else {
            &[]
        };
    }
    let TraceBytes { out, end } = trace;
    let end = end.ok_or(Fault::Nothing)?;
    Ok(&out[..end])
}
