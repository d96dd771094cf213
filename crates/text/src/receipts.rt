// The receipt, laid out so that it adds up: what it covers, the readings begun and the six places where a reading can be, their sum, and what follows.
ghost use Rattle.std.specs.Prelude.{◌≡◌, ◌-◌};
ghost use Rattle.rules.specs.Receipt.{unplaced, lost, remaining};
ghost use Rattle.text.specs.Receipts.{word64, sum_of_six};

use crate::covers::{Covers, Extent};
use crate::file_names::name_line;
use crate::names::Refused;
use crate::put::{Line, Many, print_line};
use ring::{Receipt, Ring};
use rules::state::Size;
use std::fmt;
use std::fmt::{Display, Formatter, Write};

// How wide the column of the counts is, with what they are of.
const COUNTS: usize = 60;

// ---- the numbers: functions and no methods, since Receipt is a type of the rules

// Begun and not yet given a place.
pub fn unplaced(r: Receipt) -> u64
    ensures { result ≡ unplaced r }
{
    r.begun.saturating_sub(r.taken).saturating_sub(r.dropped)
}

// Lost, to newer readings or for want of room.
pub fn lost(r: Receipt) -> u64
    ensures { result ≡ word64 (lost r) }
{
    r.overwritten.wrapping_add(r.dropped)
}

// Still in the logger: finished, not finished, or not yet given a place.
pub fn remaining(r: Receipt) -> u64
    ensures { result ≡ word64 (remaining r) }
{
    r.waiting.wrapping_add(r.open).wrapping_add(unplaced(r))
}

// The six places together.
pub fn sum_of_six(r: Receipt) -> u64
    ensures { result ≡ word64 (sum_of_six r) }
{
    r.handed.wrapping_add(lost(r)).wrapping_add(remaining(r))
}

// ---- the lines, joined by `&`: one after a line that could not be written is tried all the same. A row of a table would be no
// shorter than a call.

// A count: what it is of, and the name that the rules have for it.
fn count_line(text: &str, count: u64, name: &str) -> bool {
    let width = COUNTS.saturating_sub(text.len());
    print_line(format_args!("    {text}{count:>width$}   {name}"))
}

// The readings begun and the six places, with what is said of their sum.
fn count_lines(r: Receipt, accounted: &str) -> bool {
    let overwritten = "  lost to newer readings before they were fetched";
    let unplaced_readings = "  begun and not yet given a place";
    count_line("readings begun", r.begun, "begun")
        & count_line("  handed out", r.handed, "handed")
        & count_line(overwritten, r.overwritten, "overwritten")
        & count_line("  lost for want of room", r.dropped, "dropped")
        & count_line("  finished and still in the logger", r.waiting, "waiting")
        & count_line("  not finished", r.open, "open")
        & count_line(unplaced_readings, unplaced(r), "begun - taken - dropped")
        & count_line(accounted, sum_of_six(r), "sum of these six")
        & count_line("given a number and a place", r.taken, "taken")
}

// Whether the newest readings are kept out. A mode is a number and no enum, since that of a ring out of shape may be none.
pub(crate) fn stops(size: Size) -> bool {
    size.mode == Ring::STOP
}

// The set-up that a receipt is of.
fn ring_line(size: Size) -> bool {
    let mode = if stops(size) {
        "stop mode: the newest readings are kept out"
    } else {
        "overwrite mode: the oldest readings give way"
    };
    print_line(format_args!(
        "    ring      {} of {}, {mode}",
        Many(u64::from(size.pages), "page"),
        Many(u64::from(size.slots), "slot")
    ))
}

// How many were handed out, lost, and left.
#[derive(Clone, Copy)]
struct Shares(Receipt);

impl Display for Shares {
    fn fmt<W: Write>(&self, f: &mut Formatter<W>) -> fmt::Result {
        let handed = self.0.handed;
        let lost = lost(self.0);
        let remaining = remaining(self.0);
        write!(
            f,
            "{handed} handed out, {lost} lost, {remaining} still in the logger"
        )
    }
}

// Complete, or not complete and why.
fn verdict(r: Receipt) -> bool {
    if r.complete {
        print_line(format_args!("    Complete: {} of {} handed out", r.handed, r.begun))
    } else {
        print_line(format_args!("    Not complete: {}", Shares(r)))
    }
}

// A last line that is no statement, after a refusal.
fn refused_line(refusal: u32, what: &str) -> bool {
    print_line(format_args!("    Refused {}: {what}", Refused(refusal)))
}

// How far a refused trace goes, and what is said up to there.
fn partial_lines(r: Receipt, covers: Covers) -> bool {
    let stop = covers.stop;
    print_line(format_args!("    As far as byte {stop}: {}", Shares(r)))
        & refused_line(covers.refusal, "no statement about the day after that")
}

// ---- the receipts

fn heading() -> bool {
    print_line("  Receipt")
}

fn whole_lines(size: Size, r: Receipt) -> bool {
    ring_line(size) & count_lines(r, "every reading begun is accounted for") & verdict(r)
}

// The receipt of a ring.
pub fn receipt(size: Size, r: Receipt) -> bool {
    let nothing = "no statement about any reading; all counts are 0, not complete";
    heading()
        & match r.refusal {
            0 => whole_lines(size, r),
            refusal => refused_line(refusal, nothing),
        }
}

// The trace that a receipt is of.
fn covers_lines(name: &[u8], covers: Covers) -> bool {
    heading()
        & name_line(Line::wrapping(), "    trace     ", name)
        & print_line(format_args!("    length    {}", Extent(covers)))
}

// The receipt of a trace, or of what was read of it.
pub fn trace_receipt(name: &[u8], covers: Covers, size: Size, r: Receipt) -> bool {
    let good = covers_lines(name, covers);
    if covers.is_whole() {
        whole_lines(size, r) & good
    } else if covers.has_ring() {
        ring_line(size)
            & count_lines(r, "each begun before the damage is accounted for")
            & partial_lines(r, covers)
            & good
    } else {
        print_line("    ring      none was set up")
            & count_lines(r, "no reading was begun in what was read")
            & refused_line(covers.refusal, "no statement about the day")
            & good
    }
}

// What stands for the receipt of a file that can't be read.
pub fn unreadable_receipt(name: &[u8]) -> bool {
    heading()
        & name_line(Line::wrapping(), "    trace     ", name)
        & print_line("    Unreadable: no statement about the day")
}
