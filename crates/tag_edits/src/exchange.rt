// Tags exchanged in place: the keys and values behind them move along, and so do the entries; zeros fill the rest.
ghost use Rattle.std.specs.Prelude.{◌≡◌, true, ◌++◌, ◌+◌, ◌^◌, ◌<◌, ◌≤◌, length};
ghost use Rattle.model.specs.Bytes.{pad_to};
ghost use Rattle.model.specs.Numbers.{le32};
ghost use Rattle.model.specs.Opening.{is_some};
ghost use Rattle.model.specs.TagList.{set_tag, remove_tag, max_key, max_tags, max_value, stored_key, tags_length, encode_tags, shown_tags, decode_tags};
ghost use Rattle.tag_list.specs.Spot.{spot_in};
ghost use Rattle.tag_edits.specs.Exchanged.{exchanged, size_of, gap_of, Exchange};

use block::{splice, write32};
use tag_list::{Found, TAG_ENTRY_LENGTH, TagList, entry_start};
use text::filled;

// What is exchanged: the `held` tags at a place, whose keys and values are so many bytes from `start` on. How many is a number, since so many
// entries are taken out.
#[derive(Clone, Copy)]
struct Gap {
    place: usize,
    start: usize,
    held: usize,
    size: usize,
}

// The tag of a key that was found; where none was, no tag stands there.
fn gap_at(found: Found, key_size: usize) -> Gap
    requires { size_of found.value key_size < 2 ^ 64 }
    ensures { result ≡ gap_of found key_size }
{
    let (held, size) = match found.value {
        Some(value) => (1, key_size + value.size),
        None => (0, 0),
    };
    Gap {
        place: found.place,
        start: found.start,
        held,
        size,
    }
}

// Puts `entry` in the place of the entries of the tags in the gap, and t and u in the place of their keys and values; and writes how many tags
// there are then.
fn exchange(list: &mut [u8], gap: Gap, entry: &[u8], t: &[u8], u: &[u8])
    requires { Exchange list.old gap (length entry.now) (length t.now + length u.now) }
    ensures { list.new ≡ pad_to tags_length (exchanged gap entry.now (t.now ++ u.now) (shown_tags list.old)) }
{
    let tags = TagList::of(list);
    let end = tags.contents_end();
    let count = tags.count() - gap.held + entry.len() / TAG_ENTRY_LENGTH;
    splice(list, end, gap.start, gap.size, t, u);
    splice(
        list,
        end - gap.size + (t.len() + u.len()),
        entry_start(gap.place),
        TAG_ENTRY_LENGTH * gap.held,
        entry,
        b"",
    );
    write32(list, 0, count);
}

// The entry of a tag: the lengths of its key and of its value.
fn entry_of(key: usize, value: usize) -> [u8; TAG_ENTRY_LENGTH]
    ensures { result ≡ le32 key ++ le32 value }
{
    let mut entry: [u8; TAG_ENTRY_LENGTH] = filled(0);
    let p = write32(&mut entry, 0, key);
    write32(&mut entry, p, value);
    entry
}

// Sets the tag of a key, which was found where it stands or would, to a value. The list is lent by itself, known to be one: a struct that
// holds the list to be changed was tried, and what its bytes are after a call could not be shown.
#[tactic(auto, using(crate::proofs::Placed::placed))]
pub fn set(list: &mut [u8], found: Found, key: &[u8], value: &[u8])
    requires { (is_some (decode_tags list.old) ≡ true) × (gap_of found (length key.now) ≡ gap_of (spot_in key.now list.old) (length key.now)) × (stored_key key.now ≡ true) × (length value.now ≤ max_value)
        × (length (set_tag key.now value.now (shown_tags list.old)) ≤ max_tags) }
    ensures { list.new ≡ encode_tags (set_tag key.now value.now (shown_tags list.old)) }
{
    let entry = entry_of(key.len(), value.len());
    exchange(list, gap_at(found, key.len()), &entry, key, value);
}

// Removes the tag of a key, which was found where it stands or would, if the list holds it.
#[tactic(auto, using(crate::proofs::Placed::placed))]
pub fn delete(list: &mut [u8], found: Found, key: &[u8])
    requires { (is_some (decode_tags list.old) ≡ true) × (gap_of found (length key.now) ≡ gap_of (spot_in key.now list.old) (length key.now)) × (length key.now ≤ max_key) }
    ensures { list.new ≡ encode_tags (remove_tag key.now (shown_tags list.old)) }
{
    exchange(list, gap_at(found, key.len()), b"", b"", b"");
}
