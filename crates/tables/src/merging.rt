// The pairs of a record put into the tables.
ghost use Rattle.std.specs.Prelude.{◌≡◌, length};
ghost use Rattle.model.specs.Questions.{pairs_of};
ghost use Rattle.sorted.specs.Tables.{Kept};
ghost use Rattle.tables.specs.Merging.{subgraph_more, translation_more, MergeRoom, PairsPut};

use model::Kind;
use record::Record;
use sorted::Tables;

// Puts all pairs of a kind of a record into the tables.
pub fn add_pairs<const NAMES: usize, const PAIRS: usize, const BYTES: usize>(
    kind: Kind,
    tables: &mut Tables<NAMES, PAIRS, BYTES>,
    other: &Record,
)
    requires kept { Kept tables.old }
    requires merge_room { MergeRoom NAMES PAIRS BYTES tables.old other.now (subgraph_more kind (length (pairs_of kind other.now))) (translation_more kind (length (pairs_of kind other.now))) }
    ensures { PairsPut kind tables.old other.now tables.new }
{
    for (from, to) in other.pairs(kind) {
        tables.put_pair(kind, from, to);
    }
}
