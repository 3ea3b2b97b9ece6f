// What a record holds, one by one: counts, the own name, names and pairs by their places, and whether two records have the same name.
//
// Each function takes any slice of any length and equals a definition of `model/specs/Questions.antt`. A place past the end gives nothing.
#![tactic(auto)]

ghost use Rattle.std.specs.Prelude.{◌≡◌};
ghost use Rattle.model.specs.Questions.{counts_in, name_in, name_at_in, pair_at_in, is_same_in};

use model::{Counts, Fault, Kind, PairParts, Part};
use record::Record;

// How many distinct names and how many pairs of each kind a record holds.
#[tactic(auto, unfolding(model::specs::Questions::counts_in, model::specs::Questions::asked))]
pub fn counts(b: &[u8]) -> Result<Counts, Fault>
    ensures { result ≡ counts_in b.now }
{
    let record = Record::open(b)?;
    Ok(Counts {
        names: record.name_count(),
        subgraph: record.pair_count(Kind::Subgraph),
        translation: record.pair_count(Kind::Translation),
    })
}

// The own name.
#[tactic(auto, unfolding(model::specs::Questions::name_in, model::specs::Questions::asked))]
pub fn name(b: &[u8]) -> Result<Option<Part>, Fault>
    ensures { result ≡ name_in b.now }
{
    Ok(Record::open(b)?.own_part())
}

// The name at a place, in ascending order, counted from 0.
#[tactic(auto, unfolding(model::specs::Questions::name_at_in, model::specs::Questions::asked))]
pub fn name_place(b: &[u8], i: usize) -> Result<Option<Part>, Fault>
    ensures { result ≡ name_at_in b.now i }
{
    Ok(Record::open(b)?.part(i))
}

// The pair of a kind at a place, in ascending order, counted from 0.
#[tactic(auto, unfolding(model::specs::Questions::pair_at_in, model::specs::Questions::asked))]
pub fn pair_place(b: &[u8], kind: Kind, i: usize) -> Result<Option<PairParts>, Fault>
    ensures { result ≡ pair_at_in kind b.now i }
{
    Ok(Record::open(b)?.pair_parts(kind, i))
}

// Whether both records are named, by the same name.
#[tactic(auto, unfolding(model::specs::Questions::is_same_in, model::specs::Questions::asked_both))]
pub fn is_same(b: &[u8], c: &[u8]) -> Result<bool, Fault>
    ensures { result ≡ is_same_in b.now c.now }
{
    let (record, other) = Record::open_both(b, c)?;
    match (record.own_name(), other.own_name()) {
        (Some(name), Some(other_name)) => Ok(text::same(name, other_name)),
        _ => Ok(false),
    }
}
