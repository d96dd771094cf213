// Why a file cannot be read, as the system words it.
use std::fmt::InlineText;
use std::io::Error;
use text::STDERR;

// The library adds the error's number to the system's words; here these stand alone.
fn system_words(text: &str) -> &str {
    text.split_once(" (os error ")
        .map_or(text, |(words, _)| words)
}

// The line on standard error about a file that cannot be read, with the reason.
pub(crate) fn complain(name: &[u8], error: Error) {
    text::error_name(name);
    let reason = InlineText::<128>::of(error);
    let words = system_words(reason.as_str());
    let line = InlineText::<136>::of(format_args!(": {words}\n"));
    io::write_all(STDERR, line.as_str().as_bytes());
}
