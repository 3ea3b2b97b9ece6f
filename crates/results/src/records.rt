// What a record holds, one by one.
ghost use Rattle.std.specs.Prelude.{◌≡◌};
ghost use Rattle.model.specs.Opening.{value_or, settled};
ghost use Rattle.model.specs.Values.{is_present, part_start, part_size, from_start_of, from_size_of, to_start_of, to_size_of};

use model::{Counts, Fault, PairParts, Part};

// Hands out counts: how many names and pairs of each kind.
pub fn counts_out(
    given: Result<Counts, Fault>,
    names: &mut u64,
    subgraph: &mut u64,
    translation: &mut u64,
) -> Result<(), Fault>
    ensures value { result ≡ settled given }
    ensures names_after { names.new ≡ value_or names.old (λ c. c.names) given }
    ensures subgraph_after { subgraph.new ≡ value_or subgraph.old (λ c. c.subgraph) given }
    ensures translation_after { translation.new ≡ value_or translation.old (λ c. c.translation) given }
{
    let counts = given?;
    *names = counts.names as u64;
    *subgraph = counts.subgraph as u64;
    *translation = counts.translation as u64;
    Ok(())
}

// Where a part starts and how long it is, or 0 and 0 where there is none.
pub(crate) fn place_out(part: Option<Part>, start: &mut u64, length: &mut u64)
    ensures start_after { start.new ≡ part_start part }
    ensures length_after { length.new ≡ part_size part }
{
    *start = part.map_or(0, |p| p.start as u64);
    *length = part.map_or(0, |p| p.size as u64);
}

// Hands out a part: whether there is one, where it starts and how long it is.
pub fn part_out(
    given: Result<Option<Part>, Fault>,
    present: &mut u64,
    start: &mut u64,
    length: &mut u64,
) -> Result<(), Fault>
    ensures value { result ≡ settled given }
    ensures present_after { present.new ≡ value_or present.old is_present given }
    ensures start_after { start.new ≡ value_or start.old part_start given }
    ensures length_after { length.new ≡ value_or length.old part_size given }
{
    let part = given?;
    *present = part.is_some().into();
    place_out(part, start, length);
    Ok(())
}

// Hands out a pair: whether there is one, and where its two names start and how long they are.
pub fn pair_out(
    given: Result<Option<PairParts>, Fault>,
    present: &mut u64,
    from_start: &mut u64,
    from_length: &mut u64,
    to_start: &mut u64,
    to_length: &mut u64,
) -> Result<(), Fault>
    ensures value { result ≡ settled given }
    ensures present_after { present.new ≡ value_or present.old is_present given }
    ensures from_start_after { from_start.new ≡ value_or from_start.old from_start_of given }
    ensures from_length_after { from_length.new ≡ value_or from_length.old from_size_of given }
    ensures to_start_after { to_start.new ≡ value_or to_start.old to_start_of given }
    ensures to_length_after { to_length.new ≡ value_or to_length.old to_size_of given }
{
    let pair = given?;
    *present = pair.is_some().into();
    place_out(pair.map(|p| p.from), from_start, from_length);
    place_out(pair.map(|p| p.to), to_start, to_length);
    Ok(())
}
