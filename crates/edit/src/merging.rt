// The pairs of another record put into the tables, if it is merged.
ghost use Rattle.std.specs.Prelude.{IfSome, length};
ghost use Rattle.std.specs.Option.{option_copied};
ghost use Rattle.sorted.specs.Tables.{Kept};
ghost use Rattle.tables.specs.Merging.{MergeRoom};
ghost use Rattle.edit.specs.Merging.{Merged};

use model::Kind;
use record::Record;
use sorted::Tables;
use tables::add_pairs;

// Puts all pairs of another record into the tables, if it is merged.
pub(crate) fn merge<const NAMES: usize, const PAIRS: usize, const BYTES: usize>(
    other: Option<&Record>,
    tables: &mut Tables<NAMES, PAIRS, BYTES>,
)
    requires kept { Kept tables.old }
    requires room { IfSome other (λ h. MergeRoom NAMES PAIRS BYTES tables.old h.now (length h.now.subgraph) (length h.now.translation)) }
    ensures { Merged (option_copied other.entry) tables.old tables.new }
{
    if let Some(record) = other {
        add_pairs(Kind::Subgraph, tables, record);
        add_pairs(Kind::Translation, tables, record);
    }
}
