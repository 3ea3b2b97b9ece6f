// How long a written text is, and which of the three tags were written.
ghost use Rattle.std.specs.Prelude.{◌≡◌};
ghost use Rattle.model.specs.Opening.{value_or, settled};
ghost use Rattle.model.specs.Values.{is_present, or_zero};

use model::{Fault, TagSizes};

// Hands out a count: of bytes written, or of tags.
pub fn count_out(given: Result<usize, Fault>, count: &mut u64) -> Result<(), Fault>
    ensures value { result ≡ settled given }
    ensures count_after { count.new ≡ value_or count.old (λ n. n) given }
{
    *count = given? as u64;
    Ok(())
}

// Whether there is a value, and how many bytes it has.
pub(crate) fn length_out(length: Option<usize>, present: &mut u64, written: &mut u64)
    ensures present_after { present.new ≡ is_present length }
    ensures written_after { written.new ≡ or_zero (λ n. n) length }
{
    *present = length.is_some().into();
    *written = length.map_or(0, |n| n as u64);
}

// Hands out three tags: whether there is each, and how many bytes its value has.
pub fn tags_out(
    given: Result<TagSizes, Fault>,
    has_name: &mut u64,
    name_length: &mut u64,
    has_subgraph: &mut u64,
    subgraph_length: &mut u64,
    has_translation: &mut u64,
    translation_length: &mut u64,
) -> Result<(), Fault>
    ensures value { result ≡ settled given }
    ensures has_name_after { has_name.new ≡ value_or has_name.old (λ v. is_present v.name) given }
    ensures name_length_after { name_length.new ≡ value_or name_length.old (λ v. or_zero (λ n. n) v.name) given }
    ensures has_subgraph_after { has_subgraph.new ≡ value_or has_subgraph.old (λ v. is_present v.subgraph) given }
    ensures subgraph_length_after { subgraph_length.new ≡ value_or subgraph_length.old (λ v. or_zero (λ n. n) v.subgraph) given }
    ensures has_translation_after { has_translation.new ≡ value_or has_translation.old (λ v. is_present v.translation) given }
    ensures translation_length_after { translation_length.new ≡ value_or translation_length.old (λ v. or_zero (λ n. n) v.translation) given }
{
    let sizes = given?;
    length_out(sizes.name, has_name, name_length);
    length_out(sizes.subgraph, has_subgraph, subgraph_length);
    length_out(sizes.translation, has_translation, translation_length);
    Ok(())
}
