// A ring of readings for climate loggers, as a machine of single steps. Each action takes the ring by value and gives it back with an
// answer; nothing is kept elsewhere. The rules are those of crate rules, and each function's contract is an equation with one of them, about the
// state that its ring is (specs/Ring).
#![tactic(auto)]

pub mod state; // the ring, and what its calls give back
pub mod codes; // answers as numbers
pub mod cells; // what stands where in the arrays
pub mod words; // link words, split, joined and searched
pub mod shape; // the test of shape
pub mod setup; // fresh and plain
pub mod begin; // Begin
pub mod pieces; // what a Write or a Read leaves in each piece
pub mod write; // Write
pub mod read; // Read
pub mod receipt; // the receipt
pub mod act; // any of the three
pub mod actions; // actions as bytes
pub mod change; // what an action of any kind stores
pub mod replay; // actions in bytes, made one by one in place
pub mod turn; // what some Reads in a row store
pub mod drain; // Reads in a row, their Events in a buffer that is lent
pub mod drain_part; // the same, with the part that is filled handed back

// what a caller names
pub use actions::{action_at, action_count};
pub use codes::answer_numbers;
pub use drain_part::DrainPart;
pub use rules::actions::Coded;
pub use rules::codes::Numbers;
pub use rules::state::{Action, Answer, PageNo, ReadingNo, Receipt, Refusal};
pub use state::{DrainCount, Replay, Ring, Step};
