// The path questions: whether one graph is a subgraph of another, or translates to it, and the best path between them.
//
// Both functions take any slices, and equal the definitions `ask_subgraph` and `ask_full` of `model/specs/Outcome.antt`, whose answer is
// a yes with the path's bytes in the output, a no, or a fault. `proofs/Demand.antt` has demand 3 of those definitions.
#![tactic(auto)]

mod question;
mod tables;

pub use question::{is_subgraph_of, translates_to};
