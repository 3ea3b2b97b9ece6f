// A change of a record: the pairs of another put in, if it is merged, and one pair more, if there is one. The tables are small where
// both records are.
ghost use Rattle.std.specs.Prelude.{◌≡◌, true, IfSome};
ghost use Rattle.std.specs.Option.{option_copied};
ghost use Rattle.model.specs.Layout.{shown};
ghost use Rattle.sorted.specs.Tables.{PairRoom};
ghost use Rattle.sorted.specs.Loading.{sizes_of, Limited};
ghost use Rattle.tables.specs.Judging.{outcome};
ghost use Rattle.edit.specs.Merging.{merged_sizes};
ghost use Rattle.edit.specs.Changing.{change_of, Changeable, ChangeRoom, FitSmall, Paired};

use crate::merging::merge;
use model::{Fault, Kind};
use record::{MAX_BODIES_BYTES, MAX_NAME_BYTES, MAX_NAMES, MAX_PAIRS, Record};
use sorted::{Sizes, Tables};
use tables::keep_named;

// A change is made in tables of two sizes: large ones for any two records, and small ones, which are cleared sooner. All have room for a
// pair more, with its two names.
const LARGE_NAMES: usize = 2 * MAX_NAMES + 2;

const LARGE_PAIRS: usize = 2 * MAX_PAIRS + 1;

const LARGE_BYTES: usize = 2 * MAX_BODIES_BYTES + 2 * MAX_NAME_BYTES;

const SMALL_NAMES: usize = 128 + 2;

const SMALL_PAIRS: usize = 128 + 1;

const SMALL_BYTES: usize = 8192 + 2 * MAX_NAME_BYTES;

// A relation of a kind between two names.
#[derive(Clone, Copy)]
pub(crate) struct Relation<'a> {
    pub kind: Kind,
    pub from: &'a [u8],
    pub to: &'a [u8],
}

// Puts in a pair, if there is one.
#[tactic(auto, using(crate::proofs::Changes::paired_put))]
fn put_if<const NAMES: usize, const PAIRS: usize, const BYTES: usize>(
    pair: Option<Relation>,
    tables: &mut Tables<NAMES, PAIRS, BYTES>,
)
    requires { IfSome pair (λ p. PairRoom NAMES PAIRS BYTES tables.old p.from.now p.to.now) }
    ensures { Paired pair.entry tables.old tables.new }
{
    if let Some(p) = pair {
        tables.put_pair(p.kind, p.from, p.to);
    }
}

// The change, in tables for so many names, pairs of each kind and bytes.
fn change_sized<const NAMES: usize, const PAIRS: usize, const BYTES: usize>(
    buffer: &mut [u8],
    other: Option<&Record>,
    pair: Option<Relation>,
) -> Result<(), Fault>
    requires { Changeable buffer.old pair × ChangeRoom (sizes_of (shown buffer.old)) (merged_sizes (option_copied other)) NAMES PAIRS BYTES }
    ensures { outcome result buffer.new ≡ change_of buffer.old (option_copied other.entry) pair.entry }
{
    let mut tables = Tables::<NAMES, PAIRS, BYTES>::new();
    tables.load(&Record::of(buffer));
    merge(other, &mut tables);
    put_if(pair, &mut tables);
    keep_named(buffer, &tables)
}

// How much of the tables another record takes, if it is merged.
fn merged_sizes(other: Option<&Record>) -> Sizes
    ensures sizes { result ≡ merged_sizes (option_copied other.entry) }
    ensures limited { Limited result }
{
    match other {
        None => Sizes::default(),
        Some(record) => Sizes::of(record),
    }
}

// Whether two graph names of these sizes fit the small tables together.
fn fit_small(s: Sizes, t: Sizes) -> bool
    requires { Limited s × Limited t }
    ensures { result ≡ true → FitSmall s t }
{
    s.names + t.names <= 128
        && s.subgraph + t.subgraph <= 128
        && s.translation + t.translation <= 128
        && s.bytes + t.bytes <= 8192
}

// Adds to a record all pairs of another, if it is merged, and a pair of short names, if there is one. A refusal leaves the buffer.
pub(crate) fn change(
    buffer: &mut [u8],
    other: Option<&Record>,
    pair: Option<Relation>,
) -> Result<(), Fault>
    requires { Changeable buffer.old pair }
    ensures { outcome result buffer.new ≡ change_of buffer.old (option_copied other.entry) pair.entry }
{
    if fit_small(Sizes::of(&Record::of(buffer)), merged_sizes(other)) {
        return change_sized::<SMALL_NAMES, SMALL_PAIRS, SMALL_BYTES>(buffer, other, pair);
    }
    change_sized::<LARGE_NAMES, LARGE_PAIRS, LARGE_BYTES>(buffer, other, pair)
}
