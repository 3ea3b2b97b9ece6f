// The search, and one turn of it.
ghost use Rattle.std.specs.Prelude.{◌≡◌, ◌+◌, ◌<◌, length};
ghost use Rattle.search.specs.Steps.{Connects, leads};
ghost use Rattle.search.specs.Queue.{Searching, Kept};
ghost use Rattle.search.specs.Promise.{SearchTables, SearchedFrom};

use crate::Searched;
use crate::graph::Graph;
use crate::step::Step;

// The tables of a search, lent by the caller: the queue, with a step to each node that is found, from the place of its predecessor, in the order
// of finding; and by node its place in the queue. How many are found goes along, since the queue has room for all.
#[derive(Drop)]
pub struct Search<'a> {
    pub queue: &'a mut [Step],
    pub places: &'a mut [Option<u16>],
}

impl<'a> Search<'a> {
    // Goes on from the node at a place: every node that a step leads to from it is found then. Gives how many are found.
    fn expand<'g>(&mut self, graph: Graph<'g>, place: usize, found: usize) -> usize
        requires { Connects graph.steps.now graph.starts.now (length self.old.places.now) × Searching (leads graph.steps.now) self.old.queue.now self.old.places.now found place × (place < found) }
        ensures found { Searching (leads graph.entry.steps.now) self.new.queue.now self.new.places.now result (place + 1) }
        ensures kept { Kept self.old.queue.now found self.new.queue.now result }
        ensures same_size { length self.new.places.now ≡ length self.old.places.now }
    {
        let node = self.queue[place].to();
        let mut count = found;
        for step in graph.leaving(node) {
            let next = step.to();
            if self.places[next].is_none() {
                self.queue[count] = step.from_place(place);
                self.places[next] = Some(count as u16);
                count += 1;
            }
        }
        count
    }

    // Searches from a node until the target is taken, or to the end; a target that is no node is never taken.
    pub fn run<'g>(&mut self, graph: Graph<'g>, from: usize, target: usize) -> Searched
        requires { SearchTables graph.steps.now graph.starts.now from self.old.queue.now self.old.places.now }
        ensures { SearchedFrom (leads graph.entry.steps.now) (length self.old.places.now) from target self.new.queue.now self.new.places.now result }
    {
        self.places.fill(None);
        self.queue[0] = Step::start(from);
        self.places[from] = Some(0);
        let mut found = 1;
        let mut taken = 0;
        // Not a `for`: the end grows with what is found.
        while taken < found {
            if self.queue[taken].to() == target {
                return Searched {
                    taken: taken + 1,
                    found,
                    target: Some(taken),
                };
            }
            found = self.expand(graph, taken, found);
            taken += 1;
        }
        Searched {
            taken,
            found,
            target: None,
        }
    }
}
