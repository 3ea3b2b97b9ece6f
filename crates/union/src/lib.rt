// Two records as one graph: the names of both numbered in their order, each a span of the two buffers, and the pairs of both as one
// ascending table of steps between the numbers.
#![tactic(auto)]

mod graph;
mod names;
mod steps;

pub use graph::{United, unite};
pub use steps::Question;
