// Runs the ring on random lists of actions and on random states, in shape and out of it, drains both, and prints digests of all that comes back.
#![tactic(auto)]

mod draws; // the generator
mod digest; // numbers, answers, rings, receipts and buffers folded into a digest
mod lists; // lists of actions from a fresh ring
mod states; // states in shape
mod writers; // the stack and the reader of a state
mod counts; // the counts of a state
mod breaks; // states out of shape
mod groups; // groups of states
mod drains; // one drain of a ring
mod drain_groups; // drains of lists and of states

// Four runs of one form: what they share is `each_group`, and each has titles, seeds and counts of its own.
fn main() {
    lists::run();
    groups::run();
    drain_groups::run_lists();
    drain_groups::run_states();
}
