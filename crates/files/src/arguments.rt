// The program's arguments, which are any bytes.
ghost use Rattle.std.specs.Prelude.{◌≡◌, length};
ghost use Rattle.io.specs.Counts.{IsPrefixLen};

use std::env::{Env, FillError};

// An argument's bytes, in the buffer that is lent. One that is missing or longer than the buffer is an empty name and no None: no file has that name, and
// what is wrong is told by the name all the same. Argument 0 is the program's own name.
pub fn argument<'a, R: Env>(rt: &R, i: usize, buffer: &'a mut [u8]) -> &'a [u8]
    ensures length { IsPrefixLen (length result.now) buffer.old }
    ensures place { result.ref_ptr ≡ buffer.entry.ref_ptr }
{
    match rt.arg(i, buffer) {
        Ok(count) => &buffer[..count],
        Err(_) => &buffer[..0],
    }
}

// Whether there is an argument of this number.
fn is_given<R: Env>(rt: &R, i: usize) -> bool {
    let mut first = [0u8; 1];
    !matches!(rt.arg(i, &mut first), Err(FillError::NotPresent))
}

// How many arguments there are, the program's own name among them.
pub fn argument_count<R: Env>(rt: &R) -> usize {
    (0..usize::MAX).take_while(|i| is_given(rt, *i)).count()
}
