// The ring's answers, states and receipts as lines of text on standard output, and what is wrong with a file as a line on standard error. No
// public function has a `requires`. One that prints answers whether it could; a line after one that could not be written is tried all the same: hence
// `bool` and `&`, and no `?`.
#![tactic(auto)]

mod put; // a line that is being put together
mod names; // answers by name
mod file_names; // a file's name, escaped
mod covers; // what a receipt is of
mod lines; // lines about actions, rings and traces, and headings
mod tallies; // how often each answer came
mod receipts; // the receipt
mod plain; // the receipt for scripts
mod csv; // actions and answers as a table
mod errors; // what is wrong with a file

// what a caller uses
pub use covers::Covers;
pub use csv::{csv_heading, csv_line};
pub use errors::{error_at_line, error_line, error_name, error_refusal};
pub use file_names::{is_input, trace_heading};
pub use lines::{
    action_line, answer_line, commit_line, digest_line, fresh_line, heading, number_line,
    numbers_line, section, section_break, totals_line, trace_line, words_line,
};
pub use plain::{plain_receipt, plain_totals, plain_unreadable};
pub use put::{STDERR, STDOUT};
pub use receipts::{receipt, trace_receipt, unreadable_receipt};
pub use tallies::{Tally, count_answer, no_answers, tally};
