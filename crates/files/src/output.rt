// Where standard output goes.
use std::fs;
use std::fs::Files;
use std::os::unix::fs::FileTypeExt;

// Whether standard output is a pipe or a socket. What is written there and fails has lost its reader: nothing that is printed later reaches anyone.
pub fn is_piped<R: Files>(rt: &R) -> bool {
    fs::metadata(rt, "/proc/self/fd/1").is_ok_and(|output| {
        let kind = output.file_type();
        kind.is_fifo() || kind.is_socket()
    })
}
