// The tag list: the layout of its block, which no other code but `tag_edits` knows; the test of a block (number 29) and of a key (19); its
// reader `TagList`, a block that passed the test; and what a list holds, by place and by key.
//
// A public function that answers takes any slices of any length and equals a definition of `model/specs/TagOutcome.antt`.
#![tactic(auto)]

mod key;
mod list;
mod look_up;
mod parts;
mod sizes;
mod tags;
mod test;

pub use key::Key;
pub use list::{Found, TagList, check_list};
pub use look_up::{contains_key, counts, get, tag_place};
pub use sizes::{
    MAX_KEY, MAX_TAGS, MAX_VALUE, TAG_COUNT_LENGTH, TAG_ENTRY_LENGTH, TAGS_LENGTH, entry_start,
};
