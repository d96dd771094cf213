// The rules of the ring. Here are the types that they name, and no code but the number of a refusal and what is derived; the rules are definitions in
// specs/, and what is proved of them stands in proofs/.
#![tactic(auto)]

pub mod state; // the parts of a ring, refusals, answers, actions, the receipt
pub mod moves; // what an action decides
pub mod answers; // refusals by number
pub mod codes; // an answer as numbers
pub mod actions; // an action as bytes
