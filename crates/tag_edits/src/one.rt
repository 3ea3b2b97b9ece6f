// One tag set or removed, by its key.
ghost use Rattle.std.specs.Prelude.{◌≡◌, length};
ghost use Rattle.model.specs.Opening.{settled};
ghost use Rattle.model.specs.TagOutcome.{insert_in, remove_in, rest_given, list_with, output_with_removed};
ghost use Rattle.tag_edits.specs.Answers.{size_removed};

use crate::exchange::{delete, set};
use model::Fault;
use tag_list::{Key, MAX_TAGS, MAX_VALUE, TagList};
use text::{copy, part};

// Sets a key to a value.
#[tactic(auto, using(crate::proofs::Inserting::inserting), unfolding(model::specs::TagOutcome::insert_in))]
pub fn insert(list: &mut [u8], key: &[u8], value: &[u8]) -> Result<(), Fault>
    ensures value { result ≡ settled (insert_in list.old key.now value.now) }
    ensures list_after { list.new ≡ list_with (insert_in list.old key.now value.now) list.old }
{
    let tags = TagList::open(list)?;
    let lowered = Key::lowered(key)?;
    if MAX_VALUE < value.len() {
        return Err(Fault::LongValue);
    }
    let found = tags.find(lowered.as_bytes());
    if found.value.is_none() && MAX_TAGS <= tags.count() {
        return Err(Fault::TagsFull);
    }
    set(list, found, lowered.as_bytes(), value);
    Ok(())
}

// Removes a key, and writes the value that was there to the front of the output: how long it was. Nothing is removed if it does not fit.
#[tactic(auto, using(crate::proofs::Inserting::removing), unfolding(model::specs::TagOutcome::remove_in))]
pub fn remove(list: &mut [u8], key: &[u8], out: &mut [u8]) -> Result<Option<usize>, Fault>
    ensures value { result ≡ size_removed (remove_in list.old key.now (length out.old)) }
    ensures list_after { list.new ≡ list_with (rest_given (remove_in list.old key.now (length out.old))) list.old }
    ensures output { out.new ≡ output_with_removed (remove_in list.old key.now (length out.old)) out.old }
{
    let tags = TagList::open(list)?;
    let lowered = Key::lowered(key)?;
    let found = tags.find(lowered.as_bytes());
    let Some(value) = found.value else {
        return Ok(None);
    };
    if out.len() < value.size {
        return Err(Fault::OutputShort);
    }
    copy(out, 0, part(list, value.start, value.size));
    delete(list, found, lowered.as_bytes());
    Ok(Some(value.size))
}
