// What a line of a text of actions says: its words, parted by blanks, up to a comment.
use crate::write::Why;
use files::is_word;
use ring::{Action, Ring};
use rules::state::Size;
use std::str::from_utf8;

// What a line says that has a word.
#[derive(Clone, Copy)]
pub enum Said {
    // a set-up, in range or not: its mode may be any number
    Fresh(Size),
    Act(Action),
}

// The number of 32 bits that a word is, in decimal digits. The library's parse takes a sign too, which no number of a text has.
fn number_of(word: &[u8]) -> Result<u32, Why> {
    if !word.iter().all(|b| b.is_ascii_digit()) {
        return Err(Why::Unknown);
    }
    let digits = from_utf8(word).map_err(|_| Why::Unknown)?;
    digits.parse().map_err(|_| Why::Unknown)
}

// The mode that a word is, by its name or its number.
fn mode_of(word: &[u8]) -> Result<u32, Why> {
    if is_word(word, b"overwrite") {
        Ok(Ring::OVERWRITE)
    } else if is_word(word, b"stop") {
        Ok(Ring::STOP)
    } else {
        number_of(word)
    }
}

fn is_blank(b: u8) -> bool {
    matches!(b, b' ' | b'\t' | b'\r')
}

// What is left of a line to be read. No `split`, which would make a part for each blank of a run: they are passed over together.
#[derive(Clone, Copy)]
struct Words<'a> {
    left: &'a [u8],
}

impl<'a> Words<'a> {
    // The next word, or none where blanks alone are left.
    fn next(&mut self) -> Option<&'a [u8]> {
        let from = self.left.iter().position(|b| !is_blank(*b))?;
        let word = &self.left[from..];
        let end = word.iter().position(|b| is_blank(*b)).unwrap_or(word.len());
        self.left = &word[end..];
        Some(&word[..end])
    }
}

// What a line says, up to its comment: nothing where it has no word.
pub fn line_says(line: &[u8]) -> Result<Option<Said>, Why> {
    // at once, and not by looking for a comment and a word: a text may have a million empty lines
    if line.is_empty() {
        return Ok(None);
    }
    let end = line.iter().position(|b| *b == b'#').unwrap_or(line.len());
    let mut words = Words { left: &line[..end] };
    let Some(first) = words.next() else {
        return Ok(None);
    };
    // as many words more as a line has, and one
    let more = [words.next(), words.next(), words.next(), words.next()];
    let said = match more {
        [Some(value), None, ..] if is_word(first, b"begin") => {
            Said::Act(Action::Begin(number_of(value)?))
        }
        [None, ..] if is_word(first, b"write") => Said::Act(Action::Write),
        [None, ..] if is_word(first, b"read") => Said::Act(Action::Read),
        [Some(pages), Some(slots), Some(mode), None] if is_word(first, b"fresh") => {
            Said::Fresh(Size {
                pages: number_of(pages)?,
                slots: number_of(slots)?,
                mode: mode_of(mode)?,
            })
        }
        _ => return Err(Why::Unknown),
    };
    Ok(Some(said))
}
