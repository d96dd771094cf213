// Runs the ring through the paper's cases K1 to K12, a ring out of shape, 65537 readings, an evening that is drained and replays in little room, and
// prints what comes back.
#![tactic(auto)]

mod steps; // an action with its line
mod small; // K1 to K8: one ring of two pages
mod nested; // K9 to K11: nested writers, each from a fresh ring
mod others; // K12, and a ring out of shape
mod many; // 65537 readings
mod evening; // as many, drained through small buffers
mod room; // replays in little room

fn main() {
    small::run();
    nested::run();
    others::run();
    many::run();
    evening::run();
    room::run();
}
