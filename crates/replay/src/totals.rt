// How many traces there are of each kind, and whether all of the text was written.
ghost use Rattle.std.specs.Prelude.{◌≡◌};
ghost use Rattle.replay.specs.Totals.{status_of};

use files::Status;
use std::ops::Add;

// What became of one trace.
#[derive(Clone, Copy)]
pub enum Kind {
    Complete,
    // read whole, and not complete
    Incomplete,
    Refused,
    Unreadable,
}

#[derive(Clone, Copy)]
pub struct Totals {
    pub complete: u64,
    pub incomplete: u64,
    pub refused: u64,
    pub unreadable: u64,
    // Whether all was written. Beside the counts, and no Result: the files after a line that was not written are read and counted all the same.
    pub written: bool,
}

impl Totals {
    // No derived Default: all of no text was written.
    pub const NONE: Totals = Totals {
        complete: 0,
        incomplete: 0,
        refused: 0,
        unreadable: 0,
        written: true,
    };

    // What is told of a text that is no trace's.
    pub fn of_text(written: bool) -> Totals {
        Totals {
            written,
            ..Totals::NONE
        }
    }

    // One trace.
    pub fn of_trace(kind: Kind, written: bool) -> Totals {
        let none = Totals::of_text(written);
        match kind {
            Kind::Complete => Totals {
                complete: 1,
                ..none
            },
            Kind::Incomplete => Totals {
                incomplete: 1,
                ..none
            },
            Kind::Refused => Totals { refused: 1, ..none },
            Kind::Unreadable => Totals {
                unreadable: 1,
                ..none
            },
        }
    }

    // How many traces there are.
    pub fn count(self) -> u64 {
        self.complete
            .wrapping_add(self.incomplete)
            .wrapping_add(self.refused)
            .wrapping_add(self.unreadable)
    }

    // The last section: how many traces there are, of all and of each kind, in the line that a form has for it.
    pub(crate) fn section<F: FnOnce(u64, u64, u64, u64, u64) -> bool>(self, line: F) -> bool
        requires { F.IsAlwaysCallable line }
    {
        let parted = text::section_break();
        line(
            self.count(),
            self.complete,
            self.incomplete,
            self.refused,
            self.unreadable,
        ) & parted
    }

    pub fn status(self) -> Status
        ensures { result ≡ status_of self }
    {
        if !self.written {
            Status::NotWritten
        } else if self.refused == 0 && self.unreadable == 0 {
            Status::Whole
        } else {
            Status::Refused
        }
    }
}

impl Add for Totals {
    type Output = Totals;

    fn add(self, more: Totals) -> Totals {
        Totals {
            complete: self.complete.wrapping_add(more.complete),
            incomplete: self.incomplete.wrapping_add(more.incomplete),
            refused: self.refused.wrapping_add(more.refused),
            unreadable: self.unreadable.wrapping_add(more.unreadable),
            written: self.written & more.written,
        }
    }
}
