// Headings, and lines of two columns about an action, a ring or a trace. Each function that prints answers whether it could.
use crate::covers::{Covers, RefusedTrace};
use crate::put::{Line, Many, print_line, whole_line};
use ring::{Action, Answer, Numbers, answer_numbers};
use std::fmt::Display;

// The first line of a text's first section.
pub fn heading(text: &[u8]) -> bool {
    whole_line(text)
}

// The empty line that parts a section from the one before.
pub fn section_break() -> bool {
    print_line("")
}

// The first line of a section that is not the first.
pub fn section(text: &[u8]) -> bool {
    section_break() & heading(text)
}

// A value under a first column of any bytes.
fn value_line<V: Display + Drop>(text: &[u8], value: V) -> bool {
    let mut line = Line::labelled(text);
    write!(line, "{value}");
    line.print()
}

// A number that is said of a ring or of a run.
pub fn number_line(text: &[u8], n: u64) -> bool {
    value_line(text, n)
}

// An answer, under a first column of the caller's.
pub fn answer_line(text: &[u8], a: Answer) -> bool {
    let mut line = Line::labelled(text);
    line.answer(answer_numbers(a));
    line.print()
}

// A digest, with a first column that has a number in it.
pub fn digest_line(before: &[u8], n: u64, after: &[u8], digest: u32) -> bool {
    let mut line = Line::new();
    write!(line, "  ");
    line.bytes(before);
    write!(line, "{n}");
    line.bytes(after);
    line.pad();
    write!(line, "{digest:08x}");
    line.print()
}

// A set-up and its answer. Three numbers and no Size: they are as they were asked for, and may be refused.
pub fn fresh_line(pages: u32, slots: u32, mode: u32, a: Answer) -> bool {
    let mut line = Line::new();
    write!(line, "  fresh({pages}, {slots}, {mode})");
    line.pad();
    line.answer(answer_numbers(a));
    line.print()
}

// An action and its answer.
pub fn action_line(action: Action, a: Answer) -> bool {
    numbers_line(action, answer_numbers(a))
}

// An action and its answer, where the answer was kept as its numbers.
pub fn numbers_line(action: Action, n: Numbers) -> bool {
    let mut line = Line::new();
    match action {
        Action::Begin(value) => write!(line, "  Begin {value}"),
        Action::Write => line.bytes(b"  Write"),
        Action::Read => line.bytes(b"  Read"),
    }
    line.pad();
    line.answer(n);
    line.print()
}

// The words of pages 0 to N, as far as there are any: no function here asks that a ring is in shape.
pub fn words_line(link_words: &[u32; 17], pages: u32) -> bool {
    let mut line = Line::labelled(b"words");
    write!(line, "{}", link_words[0]);
    for word in link_words[1..].iter().take(pages as usize) {
        write!(line, ", {word}");
    }
    line.print()
}

// Where the commit position stands.
pub fn commit_line(page: u32, index: u32) -> bool {
    value_line(b"commit", format_args!("page {page}, index {index}"))
}

// A trace's refusal.
pub fn trace_line(covers: Covers) -> bool {
    value_line(b"trace", RefusedTrace(covers))
}

// How many traces there are, and how many of each kind. Numbers and no struct: what counts them is a type of the replay's.
pub fn totals_line(
    all: u64,
    complete: u64,
    incomplete: u64,
    refused: u64,
    unreadable: u64,
) -> bool {
    print_line(format_args!(
        "{}: {complete} complete, {incomplete} not complete, {refused} refused, {unreadable} unreadable",
        Many(all, "trace")
    ))
}
