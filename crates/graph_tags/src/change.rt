// Several tags changed at once: what is absent is removed first, so that there is room for what is present.
// The list is lent by itself, known to be one, as in `tag_edits`.
ghost use Rattle.std.specs.Prelude.{◌≡◌, true, ◌+◌, ◌≤◌, length, ltb, All};
ghost use Rattle.model.specs.Opening.{is_some};
ghost use Rattle.model.specs.TagList.{max_tags, encode_tags, shown_tags, decode_tags};
ghost use Rattle.graph_tags.specs.Change.{HasKey, IsFit, value_of, remove_absent, set_present, added, gone, cleared, filled};

use tag_edits::{delete, set};
use tag_list::{MAX_TAGS, TagList};

// What is made of a tag: its key is set to a value, or removed where there is none.
#[derive(Clone, Copy)]
pub(crate) struct Change<'a> {
    pub key: &'a [u8],
    pub value: Option<&'a [u8]>,
}

// How many tags are added.
fn added(tags: &TagList, changes: &[Change]) -> usize
    ensures { result ≡ added changes.now tags.now }
{
    changes
        .iter()
        .filter(|change| change.value.is_some() && !tags.contains_key(change.key))
        .count()
}

// How many tags are taken away.
fn gone(tags: &TagList, changes: &[Change]) -> usize
    ensures { result ≡ gone changes.now tags.now }
{
    changes
        .iter()
        .filter(|change| change.value.is_none() && tags.contains_key(change.key))
        .count()
}

// Whether there are too many tags once all changes are made.
pub(crate) fn is_full_then(tags: &TagList, changes: &[Change]) -> bool
    requires { length changes.now ≤ max_tags }
    ensures { result ≡ ltb (max_tags + gone changes.now tags.now) (length tags.now + added changes.now tags.now) }
{
    MAX_TAGS + gone(tags, changes) < tags.count() + added(tags, changes)
}

// Removes a tag that has no value.
#[tactic(auto, using(crate::proofs::Listed::block))]
fn remove_absent(list: &mut [u8], change: &Change)
    requires { (is_some (decode_tags list.old) ≡ true) × HasKey change.now }
    ensures { list.new ≡ encode_tags (remove_absent change.now.key.now (value_of change.now) (shown_tags list.old)) }
{
    if change.value.is_none() {
        let found = TagList::of(list).find(change.key);
        delete(list, found, change.key);
    }
}

// Removes the tags that have no value.
#[tactic(auto, using(crate::proofs::Listed::clearing))]
pub(crate) fn clear_absent(list: &mut [u8], changes: &[Change])
    requires { (is_some (decode_tags list.old) ≡ true) × All HasKey changes.now }
    ensures { list.new ≡ encode_tags (cleared changes.now (shown_tags list.old)) }
{
    for change in changes {
        remove_absent(list, change);
    }
}

// Sets a tag that has a value.
#[tactic(auto, using(crate::proofs::Listed::block))]
fn set_present(list: &mut [u8], change: &Change)
    requires { (is_some (decode_tags list.old) ≡ true) × IsFit change.now
        × (length (set_present change.now.key.now (value_of change.now) (shown_tags list.old)) ≤ max_tags) }
    ensures { list.new ≡ encode_tags (set_present change.now.key.now (value_of change.now) (shown_tags list.old)) }
{
    if let Some(value) = change.value {
        let found = TagList::of(list).find(change.key);
        set(list, found, change.key, value);
    }
}

// Sets the tags that have a value. It is `clear_absent` but for what is done with each; one function over that would state both laws
// through a closure, and is longer.
#[tactic(auto, using(crate::proofs::Listed::filling))]
pub(crate) fn fill_present(list: &mut [u8], changes: &[Change])
    requires { (is_some (decode_tags list.old) ≡ true) × All IsFit changes.now × (length (filled changes.now (shown_tags list.old)) ≤ max_tags) }
    ensures { list.new ≡ encode_tags (filled changes.now (shown_tags list.old)) }
{
    for change in changes {
        set_present(list, change);
    }
}
