// The code of an answer's kind, and its first and its second value, 0 for a value that it does not have.
// Numbers and no Answer: so answers lie in the buffers of numbers that callers lend.
#[derive(Clone, Copy, Debug, PartialEq, Eq)]
pub struct Numbers {
    pub code: u32,
    pub first: u64,
    pub second: u64,
}
