// The bytes of a file, or of standard input.
ghost use Rattle.std.specs.Prelude.{◌≡◌, length, IfOk};
ghost use Rattle.io.specs.Counts.{IsPrefixLen};

use crate::links::open_link;
use crate::reasons::complain;
use std::fs;
use std::fs::Files;
use std::io::{Error, Input, Read};
use std::str::from_utf8;

// A file that cannot be read. A line on standard error has said why.
#[derive(Clone, Copy, Debug, PartialEq, Eq)]
pub struct Unreadable;

// Reads until the buffer is full or the file ends, and says how many bytes came.
fn read_all<F: Read>(file: &mut F, bytes: &mut [u8]) -> Result<usize, Error>
    ensures { IfOk result (λ n. IsPrefixLen n bytes.new) }
{
    let mut done: usize = 0;
    // A while, and no step by one: each read alone says how many bytes came.
    while done < bytes.len() {
        let n = file.read(&mut bytes[done..])?;
        if n == 0 {
            return Ok(done);
        }
        done += n;
    }
    Ok(done)
}

// Opens the file that an argument names. A path is UTF-8 here; where the name is not, the command lends a link to its file.
fn open_named<R: Files>(rt: &R, argument: usize, name: &[u8]) -> Result<R::File, Error> {
    match from_utf8(name) {
        Ok(path) => fs::open(rt, path),
        Err(_) => open_link(rt, argument),
    }
}

// Reads the file that an argument names, or standard input.
fn read_named<R: Files + Input>(
    rt: &R,
    argument: usize,
    name: &[u8],
    bytes: &mut [u8],
) -> Result<usize, Error>
    ensures { IfOk result (λ n. IsPrefixLen n bytes.new) }
{
    if text::is_input(name) {
        return read_all(&mut rt.reader(), bytes);
    }
    read_all(&mut open_named(rt, argument, name)?, bytes)
}

// As much of a file as the buffer has room for, where its name is the argument of this number; the name - is standard input. Where it cannot be read, a
// line on standard error says why. The number stands beside the name, and not in its place: what is told of a file is told by its name.
pub fn read_file<'a, R: Files + Input>(
    rt: &R,
    argument: usize,
    name: &[u8],
    bytes: &'a mut [u8],
) -> Result<&'a [u8], Unreadable>
    ensures length { IfOk result (λ read. IsPrefixLen (length read.now) bytes.old) }
    ensures place { IfOk result (λ read. read.ref_ptr ≡ bytes.entry.ref_ptr) }
{
    match read_named(rt, argument, name, bytes) {
        Ok(count) => Ok(&bytes[..count]),
        Err(error) => {
            complain(name, error);
            Err(Unreadable)
        }
    }
}
