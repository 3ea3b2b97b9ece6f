// A step between two nodes, as one number: from * 16,384 + kind * 8,192 + to, so that the order of steps is the order of numbers.
ghost use Rattle.std.specs.Prelude.{◌≡◌, ◌+◌, ◌*◌, ◌/◌, ◌%◌, ◌<◌};
ghost use Rattle.model.specs.Path.{kind_number};
ghost use Rattle.search.specs.Steps.{max_nodes, max_moves};
ghost use Rattle.search.specs.Names.{kind_of};

use model::Kind;
use std::marker::Model;

// Nodes are numbers below this.
pub const MAX_NODES: u32 = 8192;

// And moves, which are steps without their start, are below this: one to each node by each kind.
pub const MAX_MOVES: u32 = 16384;

// A step from a node to another by a kind. In a search's queue it leads from the node at a place, and `from` is that place.
#[derive(Clone, Copy, Debug, PartialEq, Eq, PartialOrd, Ord)]
pub struct Step(u32);

impl Model for Step {
    ghost use Rattle.std.specs.Prelude.{ℕ};

    ghost Value = { ℕ };

    ghost view = { λ step. step.0 };

    ghost inverse = { λ number. record { 0 = number } };
}

impl Step {
    // A step by a kind.
    pub fn new(from: usize, kind: Kind, to: usize) -> Step
        requires { (from < max_nodes) × (to < max_nodes) }
        ensures { result ≡ from * max_moves + kind_number kind * max_nodes + to }
    {
        Step(from as u32 * MAX_MOVES + u32::from(kind) * MAX_NODES + to as u32)
    }

    // No step: how the queue begins, with the node that a search starts from.
    pub fn start(node: usize) -> Step
        requires { node < max_nodes }
        ensures { result ≡ node }
    {
        Step(node as u32)
    }

    // The same move from the node at a place of a queue.
    pub fn from_place(self, place: usize) -> Step
        requires { place < max_nodes }
        ensures { result ≡ place * max_moves + self % max_moves }
    {
        Step(place as u32 * MAX_MOVES + self.0 % MAX_MOVES)
    }

    // The node that it leaves, or in a queue the place of that node.
    pub fn from(self) -> usize
        ensures { result ≡ self / max_moves }
    {
        (self.0 / MAX_MOVES) as usize
    }

    // Its kind.
    pub fn kind(self) -> Kind
        ensures { result ≡ kind_of (self % max_moves) }
    {
        if self.0 % MAX_MOVES < MAX_NODES {
            Kind::Subgraph
        } else {
            Kind::Translation
        }
    }

    // The node that it leads to.
    pub fn to(self) -> usize
        ensures { result ≡ self % max_nodes }
    {
        (self.0 % MAX_NODES) as usize
    }
}
