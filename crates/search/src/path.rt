// The paths that a queue holds, read back by the predecessors.
ghost use Rattle.std.specs.Prelude.{◌≡◌, ◌≤◌, length};
ghost use Rattle.search.specs.Promise.{path_to, Back};

use crate::step::Step;

// How many steps the path to a place has.
pub fn path_length(queue: &[Step], place: usize) -> usize
    requires { Back queue.now place }
    ensures { (result ≡ length (path_to queue.now place)) × (result ≤ place) }
{
    let mut j = place;
    let mut n = 0;
    // By the predecessors, up to the first. `successors` was tried, and that its run ends could not be shown, where the loop has a measure.
    while 0 < j {
        j = queue[j].from();
        n += 1;
    }
    n
}
