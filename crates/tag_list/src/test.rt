// Whether a block is a tag list: its length, its count, its tags one by one, and nothing but zeros behind them.
ghost use Rattle.std.specs.Prelude.{◌≡◌, ◌≤◌, length};
ghost use Rattle.model.specs.Opening.{is_some};
ghost use Rattle.model.specs.TagList.{max_tags, tags_length, keys_after, decode_tags};
ghost use Rattle.tag_list.specs.Tags.{parts_from};
ghost use Rattle.tag_list.specs.Test.{before, tag_ok, tags_ok};

use crate::key::is_stored_key;
use crate::parts::{end_of, key_in};
use crate::sizes::{MAX_KEY, MAX_TAGS, MAX_VALUE, TAGS_LENGTH, entry_start};
use crate::tags::TagsIn;
use block::read32;
use model::TagParts;
use text::{compare, zeros_from};

// Whether the key of a tag comes before that of another.
fn is_before(b: &[u8], tag: TagParts, next: TagParts) -> bool
    ensures { result ≡ before b.now tag next }
{
    compare(key_in(b, tag), key_in(b, next)).is_lt()
}

// Whether a tag is as it should be stored.
#[tactic(auto, unfolding(crate::specs::Test::tag_ok))]
fn is_tag(b: &[u8], tag: TagParts) -> bool
    ensures { result ≡ tag_ok b.now tag }
{
    tag.key.size <= MAX_KEY && tag.value.size <= MAX_VALUE && is_stored_key(key_in(b, tag))
}

// Whether a block with this count holds so many tags, and nothing but zeros behind them.
fn are_tags(b: &[u8], count: usize) -> bool
    requires { (length b.now ≡ tags_length) × (count ≤ max_tags) }
    ensures { result ≡ tags_ok b.now (keys_after count) (parts_from b.now 0 (keys_after count) count) }
{
    let mut rest = TagsIn::of(b, count);
    let Some(mut tag) = rest.next() else {
        return zeros_from(b, entry_start(count));
    };
    for next in rest {
        if !is_tag(b, tag) {
            return false;
        }
        if !is_before(b, tag, next) {
            return false;
        }
        tag = next;
    }
    if !is_tag(b, tag) {
        return false;
    }
    let end = end_of(tag);
    zeros_from(b, end)
}

// Whether a block is a tag list.
pub(crate) fn is_tag_list(b: &[u8]) -> bool
    ensures { result ≡ is_some (decode_tags b.now) }
{
    if b.len() != TAGS_LENGTH {
        return false;
    }
    let count = read32(b, 0);
    count <= MAX_TAGS && are_tags(b, count)
}
