// The tags of a line: each has a place in a table, which tells whether it was seen.
ghost use Rattle.std.specs.Prelude.{◌≡◌, true, false, not, cond, ◌&&◌, ◌<◌, get_or, set, replicate};
ghost use Rattle.model.specs.Strict.{letter, fine_field};
ghost use Rattle.strict.specs.Tag.{letter_place, tag_place, field_place};

use crate::value::fine_field;
use text::filled;

// How many letters there are, and how many tags of two of them.
const LETTERS: usize = 52;

const TAGS: usize = 2704;

// The tags that were seen.
#[derive(Drop)]
pub(crate) struct Tags {
    seen: [bool; TAGS],
}

// The place of a letter: A to Z, then a to z.
fn letter_place(x: u8) -> usize
    requires { letter x ≡ true }
    ensures { (result ≡ letter_place x) × (result < LETTERS) }
{
    if x < b'a' {
        usize::from(x - b'A')
    } else {
        usize::from(x - b'a') + 26
    }
}

// The place of the tag of two letters.
fn tag_place(x: u8, y: u8) -> usize
    requires { (letter x ≡ true) × (letter y ≡ true) }
    ensures { (result ≡ tag_place x y) × (result < TAGS) }
{
    letter_place(x) * LETTERS + letter_place(y)
}

impl Tags {
    // No tags.
    pub(crate) fn new() -> Tags
        ensures { result.seen ≡ replicate TAGS false }
    {
        Tags {
            seen: filled(false),
        }
    }

    // Whether a field is a typed one with a tag that was not seen, which now is.
    pub(crate) fn take(&mut self, field: &[u8]) -> bool
        ensures value { result ≡ (fine_field field.now && not (get_or self.old.seen (field_place field.now) false)) }
        ensures seen_after { self.new.seen ≡ cond (fine_field field.now) (set self.old.seen (field_place field.now) true) self.old.seen }
    {
        if !fine_field(field) {
            return false;
        }
        let at = tag_place(field[0], field[1]);
        let new = !self.seen[at];
        self.seen[at] = true;
        new
    }
}
