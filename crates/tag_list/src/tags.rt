// The tags of a block, one after the other, each as the two parts where its key and its value stand.
ghost use Rattle.std.specs.Prelude.{◌+◌, ◌*◌, ◌^◌, ◌≤◌, length};
ghost use Rattle.model.specs.TagList.{keys_after};

use crate::parts::{end_of, parts_of};
use crate::sizes::entry_start;
use model::TagParts;

// Tags of a block, whatever it holds: the place of the first, the byte at which its key begins, and how many there are. By places, since the
// entries stand in front and the keys behind, so that no part of the block holds a tag.
#[derive(Clone, Copy)]
pub(crate) struct TagsIn<'a> {
    block: &'a [u8],
    place: usize,
    start: usize,
    count: usize,
    ghost within: { keys_after (place + count) ≤ length block.now },
    ghost near: { start + 2 ^ 33 * count ≤ 2 ^ 62 },
}

impl<'a> TagsIn<'a> {
    ghost use Rattle.std.specs.Prelude.{◌≡◌};
    ghost use Rattle.model.specs.TagList.{max_tags};
    ghost use Rattle.tag_list.specs.Tags.{parts_from, parts_left, Follow};

    // All tags of a block with this count.
    pub(crate) fn of(block: &'a [u8], count: usize) -> TagsIn<'a>
        requires { (count ≤ max_tags) × (keys_after count ≤ length block.now) }
        ensures parts { parts_left result ≡ parts_from block.now 0 (keys_after count) count }
        ensures follow { Follow (keys_after count) (parts_left result) }
    {
        TagsIn {
            block,
            place: 0,
            start: entry_start(count),
            count,
        }
    }
}

impl<'a> Iterator for TagsIn<'a> {
    ghost use Rattle.std.specs.Iterator.{YieldsFirst, item_count};
    ghost use Rattle.tag_list.specs.Tags.{parts_left};

    type Item = TagParts;

    ghost next_gives = { YieldsFirst parts_left };

    ghost remaining = { item_count parts_left };

    // The parts of the next tag.
    #[tactic(auto, using(crate::proofs::Listing::read))]
    fn next(&mut self) -> Option<TagParts> {
        if self.count == 0 {
            return None;
        }
        let tag = parts_of(self.block, self.place, self.start);
        *self = TagsIn {
            block: self.block,
            place: self.place + 1,
            start: end_of(tag),
            count: self.count - 1,
        };
        Some(tag)
    }
}
