// A trace: a recorded day as bytes. A mark, a version and a set-up, then actions one after the other.
#![tactic(auto)]

pub mod parts; // what a trace is made of
pub mod header; // the header of a trace
pub mod encode; // writing a trace
pub mod reader; // the reader of a trace, which keeps hold of its bytes, and the replay

// what a caller names
pub use encode::{put_action, put_header};
pub use reader::{TraceReader, replay};
