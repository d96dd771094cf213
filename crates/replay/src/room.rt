// Room for one file after the other.
use crate::FIRST_FILE;
use crate::forms::{Form, Told};
use crate::totals::Totals;
use files::NAME;
use ring::replay::NUMBERS_PER_ANSWER;
use std::env::Env;
use std::fs::Files;
use std::io::Input;
use trace::parts::{FIRST_ACTION, MOST_LENGTH};

// How many bytes of a file are read: one more than a trace may have, so that a longer file is seen as such.
const BYTES: usize = MOST_LENGTH + 1;

// Room for the answers of the longest trace: one to each byte after its header.
const ANSWERS: usize = NUMBERS_PER_ANSWER * (MOST_LENGTH - FIRST_ACTION);

// A file's name, its bytes and the answers to its actions.
#[derive(Drop)]
pub struct Room {
    name: [u8; NAME],
    bytes: [u8; BYTES],
    answers: [u64; ANSWERS],
}

impl Room {
    pub fn new() -> Room {
        Room {
            name: files::name_buffer(),
            bytes: [0; BYTES],
            answers: [0; ANSWERS],
        }
    }

    // The file that argument i names, parted from the one before.
    pub fn show<R: Env + Files + Input>(&mut self, rt: &R, form: Form, i: usize) -> Totals {
        let name = files::argument(rt, i, &mut self.name);
        let parted = Totals::of_text(i == FIRST_FILE || text::section_break());
        let shown = match files::read_file(rt, i, name, &mut self.bytes) {
            Ok(bytes) => form.show_trace(&Told::new(name, bytes, &mut self.answers)),
            Err(_) => form.show_unreadable(name),
        };
        parted + shown
    }
}
