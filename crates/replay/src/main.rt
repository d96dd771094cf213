// Replays the traces in the files that its arguments name, and prints what each answered, in one of four forms.
#![tactic(auto)]

mod print; // the actions of a replay, with their answers
mod forms; // a trace in each form
mod room; // room for one file after the other
mod totals; // how many traces of each kind

use files::{STDERR, Status};
use forms::Form;
use room::Room;
use std::env::Env;
use std::fs::Files;
use std::io::Input;
use totals::Totals;

// The form's name is argument 1, and the files follow.
pub(crate) const FIRST_FILE: usize = 2;

// The form that argument 1 names.
fn form_asked<R: Env>(rt: &R) -> Option<Form> {
    let mut buffer = [0u8; 16];
    Form::named(files::argument(rt, 1, &mut buffer))
}

// Whether the reader of a pipe went away, so that nothing more is to be printed.
fn has_no_reader<R: Files>(rt: &R, totals: Totals) -> bool {
    !totals.written && files::is_piped(rt)
}

// All files.
fn show_files<R: Env + Files + Input>(rt: &R, form: Form, count: usize) -> Totals {
    let mut room = Room::new();
    let mut totals = Totals::NONE;
    for i in FIRST_FILE..count {
        totals = totals + room.show(rt, form, i);
        if has_no_reader(rt, totals) {
            return totals;
        }
    }
    totals + form.show_end(totals)
}

// One line about wrong use.
fn wrong_use(line: &[u8]) -> Status {
    io::write_all(STDERR, line);
    Status::WrongUse
}

fn run<R: Env + Files + Input>(rt: &R) -> Status {
    let count = files::argument_count(rt);
    let form = match form_asked(rt) {
        Some(form) if FIRST_FILE < count => form,
        _ => return wrong_use(b"ring: replay FORM FILE..\n"),
    };
    // A table has no column for a name, so that it is of one file.
    if form == Form::Csv && FIRST_FILE + 1 < count {
        return wrong_use(b"ring: csv takes one file\n");
    }
    show_files(rt, form, count).status()
}

fn main(rt: HostRuntime) {
    files::tell(run(&rt));
}
