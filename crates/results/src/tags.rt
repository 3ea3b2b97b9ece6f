// What a tag list holds, and what was removed from it.
ghost use Rattle.std.specs.Prelude.{◌≡◌};
ghost use Rattle.model.specs.Opening.{value_or, settled};
ghost use Rattle.model.specs.Values.{is_present, or_zero, key_start_of, key_size_of, value_start_of, value_size_of};

use crate::records::place_out;
use crate::texts::length_out;
use model::{Fault, TagParts};

// Hands out a tag: whether there is one, and where its key and its value start and how long they are. It is `pair_out` but for the names of
// the parts, whose types are apart so that no key is taken for a name.
pub fn tag_parts_out(
    given: Result<Option<TagParts>, Fault>,
    present: &mut u64,
    key_start: &mut u64,
    key_length: &mut u64,
    value_start: &mut u64,
    value_length: &mut u64,
) -> Result<(), Fault>
    ensures value { result ≡ settled given }
    ensures present_after { present.new ≡ value_or present.old is_present given }
    ensures key_start_after { key_start.new ≡ value_or key_start.old key_start_of given }
    ensures key_length_after { key_length.new ≡ value_or key_length.old key_size_of given }
    ensures value_start_after { value_start.new ≡ value_or value_start.old value_start_of given }
    ensures value_length_after { value_length.new ≡ value_or value_length.old value_size_of given }
{
    let tag = given?;
    *present = tag.is_some().into();
    place_out(tag.map(|t| t.key), key_start, key_length);
    place_out(tag.map(|t| t.value), value_start, value_length);
    Ok(())
}

// Hands out a removal: whether there was a value, and how many of its bytes were written.
pub fn removal_out(
    given: Result<Option<usize>, Fault>,
    present: &mut u64,
    written: &mut u64,
) -> Result<(), Fault>
    ensures value { result ≡ settled given }
    ensures present_after { present.new ≡ value_or present.old is_present given }
    ensures written_after { written.new ≡ value_or written.old (or_zero (λ n. n)) given }
{
    length_out(given?, present, written);
    Ok(())
}
