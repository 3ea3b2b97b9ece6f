// The sizes, the numbers 11 to 14 of docs/FORMAT.md, and storing what is within them.
ghost use Rattle.std.specs.Prelude.{◌≡◌, true, ◌≤◌};
ghost use Rattle.std.specs.Option.{option_copied};
ghost use Rattle.model.specs.Layout.{shown, decode};
ghost use Rattle.model.specs.Opening.{number_of, is_some};
ghost use Rattle.model.specs.Outcome.{kept_or};
ghost use Rattle.record.specs.Coded.{own_in};
ghost use Rattle.sorted.specs.Tables.{table_names, graph_in};
ghost use Rattle.sorted.specs.Loading.{owned, Good};
ghost use Rattle.tables.specs.Judging.{names_and, count_fault, size_fault, numbered, outcome};

use crate::storing::store;
use model::Fault;
use record::{MAX_BODIES_BYTES, MAX_NAME_BYTES, MAX_NAMES, MAX_PAIRS};
use sorted::{Sizes, Tables};

// The first of the sizes that is over its limit: names, pairs of either kind, bytes.
#[tactic(auto, unfolding(crate::specs::Judging::count_fault))]
fn count_fault(sizes: Sizes) -> Result<(), Fault>
    ensures { number_of result ≡ count_fault sizes.names sizes.bytes sizes.subgraph sizes.translation }
{
    if MAX_NAMES < sizes.names {
        return Err(Fault::NamesFull);
    }
    if MAX_PAIRS < sizes.subgraph || MAX_PAIRS < sizes.translation {
        return Err(Fault::PairsFull);
    }
    if MAX_BODIES_BYTES < sizes.bytes {
        return Err(Fault::BodiesFull);
    }
    Ok(())
}

// What is over its limit of the graph name that the tables show, with an own name beside them if there is one. Where there is room for
// one more, it need not be looked for.
#[tactic(auto, using(crate::proofs::Judge::faults))]
pub fn size_fault<const NAMES: usize, const PAIRS: usize, const BYTES: usize>(
    tables: &Tables<NAMES, PAIRS, BYTES>,
    own: Option<&[u8]>,
) -> Result<(), Fault>
    ensures { number_of result ≡ size_fault (names_and (option_copied own.entry) (table_names tables.now)) tables.now.sizes.subgraph tables.now.sizes.translation }
{
    let sizes = tables.sizes();
    let Some(name) = own else {
        return count_fault(sizes);
    };
    if MAX_NAME_BYTES < name.len() {
        return Err(Fault::LongName);
    }
    let more = Sizes {
        names: sizes.names + 1,
        bytes: sizes.bytes + name.len(),
        ..sizes
    };
    if more.names <= MAX_NAMES && more.bytes <= MAX_BODIES_BYTES {
        return count_fault(sizes);
    }
    match tables.seek(name) {
        Ok(_) => count_fault(sizes),
        Err(_) => count_fault(more),
    }
}

// The place of an own name, if there is one, among the names, of which it is one.
fn place_among<const NAMES: usize, const PAIRS: usize, const BYTES: usize>(
    tables: &Tables<NAMES, PAIRS, BYTES>,
    own: Option<&[u8]>,
) -> Option<usize>
    requires { names_and (option_copied own) (table_names tables.now) ≡ table_names tables.now }
    ensures place { own_in (table_names tables.now) (numbered result) ≡ option_copied own.entry }
    ensures within { numbered result ≤ tables.now.sizes.names }
{
    Some(tables.seek(own?).unwrap())
}

// Stores the tables, among whose names is the record's own, if they are within the sizes; else says what is over, and leaves the buffer.
#[tactic(auto, using(sorted::proofs::Records::held))]
pub fn keep_named<const NAMES: usize, const PAIRS: usize, const BYTES: usize>(
    buffer: &mut [u8],
    tables: &Tables<NAMES, PAIRS, BYTES>,
) -> Result<(), Fault>
    requires { (is_some (decode buffer.old) ≡ true) × Good (shown buffer.old).name tables.now }
    ensures { outcome result buffer.new ≡ kept_or buffer.old (owned (shown buffer.old).name (graph_in tables.now)) }
{
    count_fault(tables.sizes())?;
    let own = place_among(tables, record::own_name(buffer));
    store(tables, own, buffer);
    Ok(())
}
