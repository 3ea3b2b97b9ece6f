// The search from one node to another, and the bytes of the path that it finds.
ghost use Rattle.std.specs.Prelude.{length};
ghost use Rattle.search.specs.Spans.{named};
ghost use Rattle.path_bytes.specs.Replies.{QuestionTables, RepliesRight};

use crate::written::FoundPath;
use model::Fault;
use search::{Graph, NodeNames, Search};

// Finds the path between two nodes, and writes it if there is room; says whether there is one.
pub fn find_path<'a, N: NodeNames>(
    names: N,
    graph: Graph<'a>,
    from: usize,
    target: usize,
    mut search: Search<'a>,
    out: &mut [u8],
) -> Result<bool, Fault>
    requires { QuestionTables (length (N.names names).spans.now) graph.steps.now graph.starts.now from target search.queue.now search.places.now }
    ensures { RepliesRight (named (N.names names)) graph.entry.steps.now (length search.entry.places.now) from target out.old result out.new }
{
    let Some(place) = search.run(graph, from, target).target else {
        return Ok(false);
    };
    let path = FoundPath {
        names: &names,
        queue: search.queue,
        place,
    };
    path.write(out)?;
    Ok(true)
}
