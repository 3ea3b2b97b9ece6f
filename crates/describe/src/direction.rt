// The search for a path between two graphs, in one direction and then in the other.
ghost use Rattle.std.specs.Prelude.{◌≡◌, length};
ghost use Rattle.path_bytes.specs.Layout.{room_for_path};
ghost use Rattle.describe.specs.Direction.{Finds};

use model::Fault;
use questions::translates_to;

// Room for the bytes of every path: at most 1,024 different names, 512 of each record.
pub(crate) const PATH_ROOM: usize = 49152;

// The direction of a path: from the first graph to the second, from the second to the first, or neither: of three
// outcomes that are alike none is a lack.
#[derive(Clone, Copy, Debug, PartialEq, Eq)]
pub enum Direction {
    Forward,
    Backward,
    Neither,
}

// Finds the path from the graph of b to that of c, or else the one from c to b, and puts its bytes to the front of `path`.
pub(crate) fn find_path<'a>(b: &'a [u8], c: &'a [u8], path: &mut [u8]) -> Result<Direction, Fault>
    requires { length path.old ≡ room_for_path }
    ensures { Finds b.now c.now result path.new }
{
    if translates_to(b, c, path)? {
        return Ok(Direction::Forward);
    }
    if translates_to(c, b, path)? {
        return Ok(Direction::Backward);
    }
    Ok(Direction::Neither)
}
