// Where a tag's key and value stand, by its entry and the place where its key begins; the key, and where the next one begins.
ghost use Rattle.std.specs.Prelude.{◌≡◌, ◌+◌, ◌^◌, ◌<◌, ◌≤◌, length};
ghost use Rattle.model.specs.TagList.{keys_after};
ghost use Rattle.tag_list.specs.Parts.{parts_read, key_in, parts_end};

use crate::sizes::entry_start;
use block::read32;
use model::{Part, TagParts};
use text::part;

// The parts of the tag at a place, whose key begins at `start`.
pub(crate) fn parts_of(list: &[u8], place: usize, start: usize) -> TagParts
    requires { (keys_after (place + 1) ≤ length list.now) × (start < 2 ^ 63) }
    ensures parts { result ≡ parts_read list.now (keys_after place) start }
    ensures near { parts_end result ≤ start + 2 ^ 33 }
{
    let entry = entry_start(place);
    let size = read32(list, entry);
    TagParts {
        key: Part { start, size },
        value: Part {
            start: start + size,
            size: read32(list, entry + 4),
        },
    }
}

// The key of a tag.
pub(crate) fn key_in(list: &[u8], tag: TagParts) -> &[u8]
    ensures { result.now ≡ key_in list.now tag }
{
    part(list, tag.key.start, tag.key.size)
}

// Where a tag ends, and the key of the next one begins.
pub(crate) fn end_of(tag: TagParts) -> usize
    requires { parts_end tag < 2 ^ 64 }
    ensures { result ≡ parts_end tag }
{
    tag.value.start + tag.value.size
}
