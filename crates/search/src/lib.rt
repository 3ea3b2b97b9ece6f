// Breadth-first search over one ascending table of steps, lent and of any size, and the names that its nodes stand for. Nodes are
// numbers below 8,192.
//
// `specs/Promise.antt` says what a search promises, and `proofs/Answer.antt` what follows for the target. `proofs/Local.antt` and
// `proofs/Between.antt` have the laws of the right answer and of locality, over relations alone.
#![tactic(auto)]

mod breadth;
mod graph;
mod names;
mod node_names;
mod path;
mod short_names;
mod step;
mod table;

pub use breadth::Search;
pub use graph::Graph;
pub use names::{Names, Span};
pub use node_names::NodeNames;
pub use path::path_length;
pub use short_names::{SPAN_LENGTHS, ShortNames, ShortSpan};
pub use step::{MAX_MOVES, MAX_NODES, Step};
pub use table::merge;

// How many nodes were taken from the queue, how many were found, and at which place of the queue the target is, if it was reached: it
// is the last one taken then.
#[derive(Clone, Copy, Debug, PartialEq, Eq)]
pub struct Searched {
    pub taken: usize,
    pub found: usize,
    pub target: Option<usize>,
}
