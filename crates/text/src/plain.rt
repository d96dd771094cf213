// The receipt as lines of key=value, for scripts. They are joined by `&`: a line after one that could not be written is tried all the same. A row of a
// table would be no shorter than a call.
use crate::covers::Covers;
use crate::file_names::name_line;
use crate::put::{Line, print_line};
use crate::receipts::{lost, remaining, stops, unplaced};
use ring::Receipt;
use rules::state::Size;
use std::fmt::Display;

fn key_line<V: Display + Drop>(key: &str, value: V) -> bool {
    print_line(format_args!("{key}={value}"))
}

// The set-up; where none was read, there is none to tell.
fn ring_keys(covers: Covers, size: Size) -> bool {
    if !covers.has_ring() {
        return key_line("pages", 0) & key_line("slots", 0) & key_line("mode", "none");
    }
    let mode = if stops(size) { "stop" } else { "overwrite" };
    key_line("pages", size.pages) & key_line("slots", size.slots) & key_line("mode", mode)
}

fn count_keys(r: Receipt) -> bool {
    key_line("begun", r.begun)
        & key_line("taken", r.taken)
        & key_line("handed", r.handed)
        & key_line("overwritten", r.overwritten)
        & key_line("dropped", r.dropped)
        & key_line("waiting", r.waiting)
        & key_line("open", r.open)
        & key_line("unplaced", unplaced(r))
        & key_line("lost", lost(r))
        & key_line("remaining", remaining(r))
}

// The receipt of a trace, or of what was read of it.
pub fn plain_receipt(name: &[u8], covers: Covers, size: Size, r: Receipt) -> bool {
    let is_whole = covers.is_whole();
    let read = if is_whole { "whole" } else { "refused" };
    let complete = if is_whole & r.complete { "yes" } else { "no" };
    name_line(Line::new(), "trace=", name)
        & key_line("bytes", covers.bytes)
        & key_line("read", read)
        & key_line("refusal", covers.refusal)
        & key_line("stop", covers.stop)
        & ring_keys(covers, size)
        & count_keys(r)
        & key_line("complete", complete)
}

// A file that can't be read.
pub fn plain_unreadable(name: &[u8]) -> bool {
    name_line(Line::new(), "trace=", name) & key_line("read", "unreadable")
}

// How many traces there are, and how many of each kind. Numbers and no struct: what counts them is a type of the replay's.
pub fn plain_totals(
    all: u64,
    complete: u64,
    incomplete: u64,
    refused: u64,
    unreadable: u64,
) -> bool {
    key_line("traces", all)
        & key_line("traces_complete", complete)
        & key_line("traces_not_complete", incomplete)
        & key_line("traces_refused", refused)
        & key_line("traces_unreadable", unreadable)
}
