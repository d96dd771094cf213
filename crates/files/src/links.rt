// Files whose names are not UTF-8. The library's paths are, so the command lends such a file by a link: it has a folder on a descriptor beside those that
// every program has, and in it a link to the file for the number of the argument. Where it lends none, the file cannot be read.
use std::fmt::InlineText;
use std::fs;
use std::fs::Files;
use std::io::Error;

// What the system calls a name that is no text: EILSEQ.
const NO_TEXT: i32 = 84;

// Opens the file of an argument by its link.
pub(crate) fn open_link<R: Files>(rt: &R, argument: usize) -> Result<R::File, Error> {
    let link = InlineText::<64>::of(format_args!("/proc/self/fd/7/{argument}"));
    fs::symlink_metadata(rt, link.as_str()).map_err(|_| Error::from_raw_os_error(NO_TEXT))?;
    fs::open(rt, link.as_str())
}
