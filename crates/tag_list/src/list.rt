// A tag list: a block that was tested, seen as the tags that it holds.
ghost use Rattle.std.specs.Prelude.{◌≡◌, true, ◌≤◌, length};
ghost use Rattle.model.specs.Opening.{is_some, settled};
ghost use Rattle.model.specs.TagList.{look_up, max_tags, tags_length, keys_after, tag_contents, shown_tags, decode_tags};
ghost use Rattle.model.specs.TagOutcome.{tag_list, parts_at};
ghost use Rattle.tag_list.specs.Tags.{parts_left, all_parts};
ghost use Rattle.tag_list.specs.Spot.{spot_among};

use crate::parts::{end_of, key_in};
use crate::sizes::entry_start;
use crate::tags::TagsIn;
use crate::test::is_tag_list;
use block::read32;
use model::{Fault, Part, TagParts};
use std::cmp::Ordering;
use std::marker::Model;
use text::compare;

// The place of a key among the tags, the byte where it stands or would, and where its value stands, if the list holds it.
#[derive(Clone, Copy, Debug, PartialEq, Eq)]
pub struct Found {
    pub place: usize,
    pub start: usize,
    pub value: Option<Part>,
}

// A block that is a tag list.
#[derive(Drop)]
pub struct TagList<'a> {
    block: &'a [u8],
}

impl<'a> Model for TagList<'a> {
    ghost use Rattle.std.specs.Prelude.{◌≡◌, true, List};
    ghost use Rattle.model.specs.Opening.{is_some};
    ghost use Rattle.model.specs.TagList.{Tag, shown_tags, decode_tags};

    ghost Value = { List Tag };

    ghost view = { λ l. shown_tags l.block.now };

    ghost invariant = { λ l. is_some (decode_tags l.block.now) ≡ true };
}

impl<'a> TagList<'a> {
    // The tag list that a block is: refused if it is none.
    #[tactic(auto, using(crate::proofs::Ready::listed))]
    pub fn open(block: &'a [u8]) -> Result<TagList<'a>, Fault>
        ensures { result ≡ tag_list block.now }
    {
        if !is_tag_list(block) {
            return Err(Fault::NotATagList);
        }
        Ok(TagList { block })
    }

    // The tag list that a block is known to be.
    pub fn of(block: &'a [u8]) -> TagList<'a>
        requires { is_some (decode_tags block.now) ≡ true }
        ensures { result ≡ shown_tags block.now }
    {
        TagList { block }
    }

    // How many tags there are.
    #[tactic(auto, using(crate::proofs::Walk::held))]
    pub fn count(&self) -> usize
        ensures count { result ≡ length self.now }
        ensures few { result ≤ max_tags }
    {
        read32(self.block, 0)
    }

    // The tags, one by one.
    #[tactic(auto, using(crate::proofs::Walk::held))]
    fn tags(&self) -> TagsIn<'a>
        ensures parts { parts_left result ≡ all_parts (keys_after (length self.now)) self.now }
        ensures within { length (tag_contents self.now) ≤ tags_length }
    {
        TagsIn::of(self.block, self.count())
    }

    // Where the tag at a place stands, in ascending order of keys, counted from 0, if there are as many.
    pub fn tag_parts(&self, place: usize) -> Option<TagParts>
        ensures { result ≡ parts_at (keys_after (length self.now)) self.now place }
    {
        self.tags().nth(place)
    }

    // Where the contents end: behind the last value.
    pub fn contents_end(&self) -> usize
        ensures { result ≡ length (tag_contents self.now) }
    {
        let mut end = entry_start(self.count());
        for tag in self.tags() {
            end = end_of(tag);
        }
        end
    }

    // Where a key stands, or would: tag by tag, since where one stands is the sum of the lengths before it.
    pub fn find(&self, key: &[u8]) -> Found
        ensures found { result ≡ spot_among key.now self.now }
        ensures held { is_some result.value ≡ is_some (look_up key.now self.now) }
    {
        for (place, tag) in self.tags().enumerate() {
            let start = tag.key.start;
            match compare(key, key_in(self.block, tag)) {
                Ordering::Less => return Found {
                    place,
                    start,
                    value: None,
                },
                Ordering::Equal => return Found {
                    place,
                    start,
                    value: Some(tag.value),
                },
                Ordering::Greater => {}
            }
        }
        Found {
            place: self.count(),
            start: self.contents_end(),
            value: None,
        }
    }

    // Whether a key is held.
    pub fn contains_key(&self, key: &[u8]) -> bool
        ensures { result ≡ is_some (look_up key.now self.now) }
    {
        self.find(key).value.is_some()
    }
}

// Refuses a block that is no tag list.
pub fn check_list(list: &[u8]) -> Result<(), Fault>
    ensures { result ≡ settled (tag_list list.now) }
{
    TagList::open(list)?;
    Ok(())
}
