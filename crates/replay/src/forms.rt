// A trace in each of the forms: text, csv, receipt and plain.
ghost use Rattle.std.specs.Prelude.{◌≡◌};
ghost use Rattle.replay.specs.Forms.{form_named};

use crate::print::action_lines;
use crate::totals::{Kind, Totals};
use files::is_word;
use ring::{Answer, Receipt};
use rules::state::Size;
use text::Covers;

// An enum and no trait: the form is known by a word at run time, so that a match would choose between four types all the same.
#[derive(Clone, Copy, PartialEq, Eq)]
pub enum Form {
    // each action with its answer, a refusal, and the receipt
    Text,
    // each action with its answer, as a table
    Csv,
    // the receipt alone
    Receipt,
    // the receipt as lines of key=value
    Plain,
}

// What is told of a trace: its name and bytes, and what its replay answered.
#[derive(Clone, Copy)]
pub struct Told<'a> {
    name: &'a [u8],
    bytes: &'a [u8],
    // the buffer lent, of which `made` answers were laid; beside it, since the buffer is not known here to have as many
    answers: &'a [u64],
    made: usize,
    covers: Covers,
    size: Size,
    receipt: Receipt,
}

// The number of a trace's refusal, 0 for none: so it is printed.
fn refusal_of(answer: Answer) -> u32 {
    match answer {
        Answer::Refused(why) => why.number(),
        _ => 0,
    }
}

impl<'a> Told<'a> {
    pub fn new(name: &'a [u8], bytes: &'a [u8], answers: &'a mut [u64]) -> Told<'a> {
        let replay = trace::replay(bytes, answers);
        Told {
            name,
            bytes,
            answers,
            made: replay.made,
            covers: Covers {
                bytes: bytes.len() as u64,
                refusal: refusal_of(replay.answer),
                stop: replay.stop as u64,
            },
            size: replay.ring.size,
            receipt: replay.ring.receipt(),
        }
    }

    fn set_up_line(&self) -> bool {
        let size = self.size;
        text::fresh_line(size.pages, size.slots, size.mode, Answer::Accepted)
    }

    // The set-up, the actions made, the refusal and the receipt. Here and below it is & and no &&: a line after one that could not be written is tried
    // all the same.
    fn text(&self) -> bool {
        let mut good = text::trace_heading(self.name);
        if self.covers.has_ring() {
            good &= self.set_up_line();
        }
        good &= action_lines(
            self.bytes,
            self.answers,
            self.made,
            |_, _, action, numbers| { text::numbers_line(action, numbers) },
        );
        if !self.covers.is_whole() {
            good &= text::trace_line(self.covers);
        }
        self.receipt_by(text::trace_receipt) & good
    }

    // The actions made; a refusal goes to standard error.
    fn csv(&self) -> bool {
        let mut good = text::csv_heading();
        good &= action_lines(
            self.bytes,
            self.answers,
            self.made,
            |i, at, action, numbers| { text::csv_line(i as u64, at as u64, action, numbers) },
        );
        if !self.covers.is_whole() {
            text::error_refusal(self.name, self.covers);
        }
        good
    }

    // The receipt, as a form prints it.
    fn receipt_by<F: FnOnce(&[u8], Covers, Size, Receipt) -> bool>(&self, print: F) -> bool
        requires { F.IsAlwaysCallable print }
    {
        print(self.name, self.covers, self.size, self.receipt)
    }

    fn kind(&self) -> Kind {
        if !self.covers.is_whole() {
            Kind::Refused
        } else if self.receipt.complete {
            Kind::Complete
        } else {
            Kind::Incomplete
        }
    }
}

impl Form {
    // The form that a word names.
    pub fn named(name: &[u8]) -> Option<Form>
        ensures { result ≡ form_named name.now }
    {
        if is_word(name, b"text") {
            return Some(Form::Text);
        }
        if is_word(name, b"csv") {
            return Some(Form::Csv);
        }
        if is_word(name, b"receipt") {
            return Some(Form::Receipt);
        }
        if is_word(name, b"plain") {
            return Some(Form::Plain);
        }
        None
    }

    // A trace that was read.
    pub fn show_trace(self, told: &Told<'_>) -> Totals {
        let written = match self {
            Form::Text => told.text(),
            Form::Csv => told.csv(),
            Form::Receipt => told.receipt_by(text::trace_receipt),
            Form::Plain => told.receipt_by(text::plain_receipt),
        };
        Totals::of_trace(told.kind(), written)
    }

    // What stands for a file that can't be read.
    pub fn show_unreadable(self, name: &[u8]) -> Totals {
        let written = match self {
            Form::Text => text::trace_heading(name) & text::unreadable_receipt(name),
            Form::Csv => text::csv_heading(),
            Form::Receipt => text::unreadable_receipt(name),
            Form::Plain => text::plain_unreadable(name),
        };
        Totals::of_trace(Kind::Unreadable, written)
    }

    // The last section of the forms that have receipts alone: how many there are of each kind.
    pub fn show_end(self, all: Totals) -> Totals {
        let written = match self {
            Form::Text | Form::Csv => true,
            Form::Receipt => all.section(text::totals_line),
            Form::Plain => all.section(text::plain_totals),
        };
        Totals::of_text(written)
    }
}
