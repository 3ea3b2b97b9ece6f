// The tables of a question, and how large they must be for two records.
ghost use Rattle.std.specs.Prelude.{◌≡◌};
ghost use Rattle.union.specs.United.{names_of_both, pairs_of_two};
ghost use Rattle.questions.specs.Room.{IsSize};

use model::Kind;
use record::{MAX_NAMES, MAX_PAIRS, Record};
use search::{ShortSpan, Step};

// So many names, each counted in both records, fit the small tables, which take less time to clear.
pub(crate) const SMALL_NAMES: usize = 256;

// Where the steps of each begin, and where those of the last end.
pub(crate) const SMALL_STARTS: usize = SMALL_NAMES + 1;

// And so many pairs of both records and both kinds.
pub(crate) const SMALL_PAIRS: usize = 512;

// The most names of two records.
pub(crate) const LARGE_NAMES: usize = 2 * MAX_NAMES;

pub(crate) const LARGE_STARTS: usize = LARGE_NAMES + 1;

// And the most pairs.
pub(crate) const LARGE_PAIRS: usize = 4 * MAX_PAIRS;

// Tables that are lent: for rows of steps, and then for the queue of the search; for the spans of the nodes, and by place in each record the
// node of the name there; for all steps, and where those of each node begin; and by node, where the search found it.
#[derive(Drop)]
pub(crate) struct Tables<'a> {
    pub rows: &'a mut [Step],
    pub spans: &'a mut [ShortSpan],
    pub numbers: &'a mut [u16],
    pub steps: &'a mut [Step],
    pub starts: &'a mut [u16],
    pub places: &'a mut [Option<u16>],
}

// How many names and pairs two records have.
#[derive(Clone, Copy)]
pub(crate) struct Size {
    pub names: usize,
    pub pairs: usize,
}

// How many names two records have, each counted in both, and how many pairs of both kinds.
pub(crate) fn size_of<'a>(b: &Record<'a>, c: &Record<'a>) -> Size
    ensures { IsSize b.now c.now result }
{
    let subgraphs = b.pair_count(Kind::Subgraph) + c.pair_count(Kind::Subgraph);
    let translations = b.pair_count(Kind::Translation) + c.pair_count(Kind::Translation);
    Size {
        names: b.name_count() + c.name_count(),
        pairs: subgraphs + translations,
    }
}
