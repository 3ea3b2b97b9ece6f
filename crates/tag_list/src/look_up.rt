// What a tag list holds: how many tags, one by one, and by key.
ghost use Rattle.std.specs.Prelude.{◌≡◌};
ghost use Rattle.model.specs.TagOutcome.{tag_count_in, tag_at_in, get_in, contains_in};

use crate::key::Key;
use crate::list::TagList;
use model::{Fault, Part, TagParts};

// How many tags a list holds.
#[tactic(auto, unfolding(model::specs::TagOutcome::tag_count_in))]
pub fn counts(list: &[u8]) -> Result<usize, Fault>
    ensures { result ≡ tag_count_in list.now }
{
    Ok(TagList::open(list)?.count())
}

// Where the tag at a place stands, in ascending order of keys, counted from 0.
#[tactic(auto, unfolding(model::specs::TagOutcome::tag_at_in))]
pub fn tag_place(list: &[u8], place: usize) -> Result<Option<TagParts>, Fault>
    ensures { result ≡ tag_at_in list.now place }
{
    Ok(TagList::open(list)?.tag_parts(place))
}

// Where the value of a key stands.
#[tactic(auto, using(crate::proofs::Ready::opened, crate::proofs::Asking::value_found), unfolding(model::specs::TagOutcome::get_in))]
pub fn get(list: &[u8], key: &[u8]) -> Result<Option<Part>, Fault>
    ensures { result ≡ get_in list.now key.now }
{
    let tags = TagList::open(list)?;
    let lowered = Key::lowered(key)?;
    Ok(tags.find(lowered.as_bytes()).value)
}

// Whether a list holds a key.
#[tactic(auto, unfolding(model::specs::TagOutcome::contains_in))]
pub fn contains_key(list: &[u8], key: &[u8]) -> Result<bool, Fault>
    ensures { result ≡ contains_in list.now key.now }
{
    let tags = TagList::open(list)?;
    let lowered = Key::lowered(key)?;
    Ok(tags.contains_key(lowered.as_bytes()))
}
