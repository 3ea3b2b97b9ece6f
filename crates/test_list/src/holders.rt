// The byte strings that the list sets by name and that the calls take. They stand one behind the other, the two tag lists last, and their
// lengths stand apart.
ghost use Rattle.std.specs.Prelude.{◌+◌, ◌≤◌, length};

use crate::bytes::read_bytes;
use std::ops::Range;
use text::{filled, part};

// How many there are.
const HOLDERS: usize = 13;

// The room for each but the tag lists.
const HOLDER_BYTES: usize = 47616;

// The room for a tag list: a byte more than it should have.
const TAG_LIST_BYTES: usize = 264453;

// Where the tag lists begin.
const LISTS: usize = 11 * HOLDER_BYTES;

// The room for all.
const ALL_BYTES: usize = LISTS + 2 * TAG_LIST_BYTES;

// One of the byte strings: what a call reads, what its outputs hold before it, and what they are to hold after it.
#[derive(Clone, Copy)]
pub enum Holder {
    Record,
    Other,
    One,
    Two,
    Three,
    Out,
    OutTwo,
    OutThree,
    Want,
    WantTwo,
    WantThree,
    Tags,
    WantTags,
}

impl Holder {
    // The one that a word names, if there is one.
    pub fn named(word: &[u8]) -> Option<Holder> {
        match word {
            b"record" => Some(Holder::Record),
            b"other" => Some(Holder::Other),
            b"one" => Some(Holder::One),
            b"two" => Some(Holder::Two),
            b"three" => Some(Holder::Three),
            b"out" => Some(Holder::Out),
            b"out_two" => Some(Holder::OutTwo),
            b"out_three" => Some(Holder::OutThree),
            b"want" => Some(Holder::Want),
            b"want_two" => Some(Holder::WantTwo),
            b"want_three" => Some(Holder::WantThree),
            b"tags" => Some(Holder::Tags),
            b"want_tags" => Some(Holder::WantTags),
            _ => None,
        }
    }

    // Where its room stands among the bytes of all.
    fn room(self) -> Range<usize>
        ensures ordered { result.start ≤ result.end }
        ensures small { result.end ≤ result.start + TAG_LIST_BYTES }
        ensures within { result.end ≤ ALL_BYTES }
    {
        match self {
            Holder::Tags => LISTS..LISTS + TAG_LIST_BYTES,
            Holder::WantTags => LISTS + TAG_LIST_BYTES..ALL_BYTES,
            _ => self as usize * HOLDER_BYTES..(self as usize + 1) * HOLDER_BYTES,
        }
    }
}

// All of them.
#[derive(Drop)]
pub struct Holders {
    bytes: [u8; ALL_BYTES],
    sizes: [usize; HOLDERS],
}

impl Holders {
    // Empty ones.
    pub fn new() -> Holders {
        Holders {
            bytes: filled(0),
            sizes: filled(0),
        }
    }

    // What one holds.
    pub fn get(&self, holder: Holder) -> &[u8]
        ensures { length result.now ≤ TAG_LIST_BYTES }
    {
        part(&self.bytes[holder.room()], 0, self.sizes[holder as usize])
    }

    // Sets one to the bytes that a text stands for.
    fn read(&mut self, holder: Holder, text: &[u8]) {
        self.sizes[holder as usize] = read_bytes(text, &mut self.bytes[holder.room()]);
    }

    // Sets one to what another holds, as far as there is room.
    fn copy(&mut self, holder: Holder, from: Holder) {
        let source = from.room();
        let target = holder.room();
        let size = self.sizes[from as usize]
            .min(source.end - source.start)
            .min(target.end - target.start);
        self.bytes
            .copy_within(source.start..source.start + size, target.start);
        self.sizes[holder as usize] = size;
    }

    // Sets one as a line says: to what that of a name behind `=` holds, nothing if it is no name, or to bytes.
    pub fn set(&mut self, holder: Holder, text: &[u8]) {
        match text {
            [b'=', name @ ..] => match Holder::named(name) {
                Some(from) => self.copy(holder, from),
                None => self.read(holder, b""),
            },
            _ => self.read(holder, text),
        }
    }

    // Whether a call on a copy of one agrees, and leaves in the copy what another holds.
    pub fn agrees_on_copy<F: FnOnce(&mut [u8]) -> bool>(
        &self,
        before: Holder,
        after: Holder,
        call: F,
    ) -> bool
        requires { F.IsAlwaysCallable call }
    {
        let mut space: [u8; TAG_LIST_BYTES] = filled(0);
        let bytes = self.get(before);
        let copy = &mut space[..bytes.len()];
        copy.copy_from_slice(bytes);
        call(copy) && &*copy == self.get(after)
    }
}
