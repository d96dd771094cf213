// What the programs share that read files: their arguments, the bytes of a file or of standard input, a word of an argument or of a text, and the status
// that a program tells. No function has a `requires`.
#![tactic(auto)]

mod arguments; // the program's arguments
mod load; // the bytes of a file
mod links; // files whose names are not UTF-8
mod reasons; // why a file cannot be read
mod output; // where standard output goes
mod names; // room for a file's name
mod words; // whether bytes are a word
mod status; // how a program ended

// what a caller uses
pub use arguments::{argument, argument_count};
pub use load::{Unreadable, read_file};
pub use names::{NAME, name_buffer};
pub use output::is_piped;
pub use status::{Status, tell};
pub use text::{STDERR, STDOUT};
pub use words::is_word;
