// Makes a trace of a text of actions, one a line, and writes it to standard output.
#![tactic(auto)]

mod line; // what a line says
mod write; // the lines of a text, put into a trace

ghost use Rattle.std.specs.Prelude.{◌≡◌, length};

use files::{STDERR, STDOUT, Status};
use std::env::Env;
use std::fs::Files;
use std::io::Input;
use trace::parts::MOST_LENGTH;
use write::{Fault, write_text};

// How many bytes of a text are read: one more than a text may have, so that a longer one is seen as such.
const BYTES: usize = MOST_TEXT + 1;

const MOST_TEXT: usize = 1048576;

// Why a text is refused, on standard error.
fn complain(name: &[u8], fault: Fault) -> Status {
    match fault {
        Fault::Line(why, n) => text::error_at_line(name, n, why.words()),
        Fault::Nothing => text::error_line(name, b"nothing is said"),
    }
    Status::Refused
}

fn write_out(trace: &[u8]) -> Status {
    if io::write_all(STDOUT, trace) {
        Status::Whole
    } else {
        Status::NotWritten
    }
}

// The trace of a text, on standard output; of one that is refused, the reason on standard error.
fn encode_text(name: &[u8], text: &[u8]) -> Status {
    if MOST_TEXT < text.len() {
        text::error_line(name, b"longer than 1048576 bytes");
        return Status::Refused;
    }
    let mut out = [0u8; MOST_LENGTH];
    match write_text(text, &mut out) {
        Ok(trace) => write_out(trace),
        Err(fault) => complain(name, fault),
    }
}

// A function of its own: its length is told by a law, where a caller would count the bytes.
fn text_buffer() -> [u8; BYTES]
    ensures { 1048577 ≡ length result }
{
    [0u8; BYTES]
}

fn encode_file<R: Files + Input>(rt: &R, name: &[u8]) -> Status {
    let mut bytes = text_buffer();
    match files::read_file(rt, 1, name, &mut bytes) {
        Ok(text) => encode_text(name, text),
        Err(_) => Status::Refused,
    }
}

fn run<R: Env + Files + Input>(rt: &R) -> Status {
    if files::argument_count(rt) != 2 {
        io::write_all(STDERR, b"ring: encode FILE\n");
        return Status::WrongUse;
    }
    let mut name = files::name_buffer();
    encode_file(rt, files::argument(rt, 1, &mut name))
}

fn main(rt: HostRuntime) {
    files::tell(run(&rt));
}
