// The operations that make and change records. A refusal leaves the buffer, save that `new` of a long name leaves the empty record. They have the
// Rust's names, a line each where there is one for either kind.
ghost use Rattle.std.specs.Prelude.{◌≡◌, ◌≤◌, length};
ghost use Rattle.model.specs.Opening.{number_of};
ghost use Rattle.model.specs.Record.{empty, with_name, max_name_bytes};
ghost use Rattle.model.specs.Layout.{record_length, encode};
ghost use Rattle.model.specs.Outcome.{add_pair, add_subgraph, add_translation, add_relationships, relate, make_subgraph_of, add_translation_to, new_record};
ghost use Rattle.tables.specs.Judging.{outcome};

use crate::changing::{Relation, change};
use model::{Fault, Kind};
use record::{MAX_NAME_BYTES, RECORD_LENGTH, Record, check, check_both, own_name};
use sorted::Tables;
use tables::store;
use text::filled;

// Adds a pair of a kind to a record, unless either name is empty.
#[tactic(auto, using(crate::proofs::Adding::additions))]
fn add(kind: Kind, buffer: &mut [u8], from: &[u8], to: &[u8]) -> Result<(), Fault>
    ensures { outcome result buffer.new ≡ add_pair kind from.now to.now buffer.old }
{
    check(buffer)?;
    if from.is_empty() || to.is_empty() {
        return Ok(());
    }
    if MAX_NAME_BYTES < from.len() || MAX_NAME_BYTES < to.len() {
        return Err(Fault::LongName);
    }
    change(buffer, None, Some(Relation { kind, from, to }))
}

// Adds a subgraph pair to a record, unless either name is empty.
#[tactic(auto, unfolding(model::specs::Outcome::add_subgraph))]
pub fn add_subgraph(buffer: &mut [u8], from: &[u8], to: &[u8]) -> Result<(), Fault>
    ensures value { number_of result ≡ (add_subgraph from.now to.now buffer.old).number }
    ensures buffer_after { buffer.new ≡ (add_subgraph from.now to.now buffer.old).buffer }
{
    add(Kind::Subgraph, buffer, from, to)
}

// Adds a translation pair to a record, unless either name is empty.
#[tactic(auto, unfolding(model::specs::Outcome::add_translation))]
pub fn add_translation(buffer: &mut [u8], from: &[u8], to: &[u8]) -> Result<(), Fault>
    ensures value { number_of result ≡ (add_translation from.now to.now buffer.old).number }
    ensures buffer_after { buffer.new ≡ (add_translation from.now to.now buffer.old).buffer }
{
    add(Kind::Translation, buffer, from, to)
}

// Adds all pairs of another record to a record, and no own name.
#[tactic(auto, using(crate::proofs::Related::merges))]
pub fn add_relationships(buffer: &mut [u8], other: &[u8]) -> Result<(), Fault>
    ensures value { number_of result ≡ (add_relationships buffer.old other.now).number }
    ensures buffer_after { buffer.new ≡ (add_relationships buffer.old other.now).buffer }
{
    check_both(buffer, other)?;
    change(buffer, Some(&Record::of(other)), None)
}

// Makes the graph a child of the parent by a relation of a kind, with all pairs of the parent; does nothing if either is unnamed.
#[tactic(auto, using(crate::proofs::Related::relations))]
fn relate_to(kind: Kind, buffer: &mut [u8], parent: &[u8]) -> Result<(), Fault>
    ensures { outcome result buffer.new ≡ relate kind buffer.old parent.now }
{
    check_both(buffer, parent)?;
    let Some(own) = own_name(buffer) else {
        return Ok(());
    };
    let Some(to) = own_name(parent) else {
        return Ok(());
    };
    let mut name: [u8; MAX_NAME_BYTES] = filled(0);
    let from = &mut name[..own.len()];
    from.copy_from_slice(own);
    let parent = Record::of(parent);
    change(buffer, Some(&parent), Some(Relation { kind, from, to }))
}

// Makes the graph a subgraph of the parent, with all pairs of the parent.
#[tactic(auto, unfolding(model::specs::Outcome::make_subgraph_of))]
pub fn make_subgraph_of(buffer: &mut [u8], parent: &[u8]) -> Result<(), Fault>
    ensures value { number_of result ≡ (make_subgraph_of buffer.old parent.now).number }
    ensures buffer_after { buffer.new ≡ (make_subgraph_of buffer.old parent.now).buffer }
{
    relate_to(Kind::Subgraph, buffer, parent)
}

// Adds a translation of the graph to the parent, with all pairs of the parent.
#[tactic(auto, unfolding(model::specs::Outcome::add_translation_to))]
pub fn add_translation_to(buffer: &mut [u8], parent: &[u8]) -> Result<(), Fault>
    ensures value { number_of result ≡ (add_translation_to buffer.old parent.now).number }
    ensures buffer_after { buffer.new ≡ (add_translation_to buffer.old parent.now).buffer }
{
    relate_to(Kind::Translation, buffer, parent)
}

// Writes the record of a short name alone, from tables for one name.
fn write_name(name: &[u8], buffer: &mut [u8])
    requires { (length name.now ≤ max_name_bytes) × (length buffer.old ≡ record_length) }
    ensures { buffer.new ≡ encode (with_name name.now empty) }
{
    let mut tables = Tables::<1, 0, MAX_NAME_BYTES>::new();
    let own = tables.put_name(0, name);
    store(&tables, Some(own), buffer);
}

// Writes the record of a name alone into a buffer, whatever it held; of a long name the empty record.
#[tactic(auto, using(crate::proofs::Alone::news))]
pub fn new(name: &[u8], buffer: &mut [u8]) -> Result<(), Fault>
    ensures value { number_of result ≡ (new_record name.now buffer.old).number }
    ensures buffer_after { buffer.new ≡ (new_record name.now buffer.old).buffer }
{
    if buffer.len() != RECORD_LENGTH {
        return Err(Fault::WrongBuffer);
    }
    if MAX_NAME_BYTES < name.len() {
        buffer.fill(0);
        return Err(Fault::LongName);
    }
    write_name(name, buffer);
    Ok(())
}
