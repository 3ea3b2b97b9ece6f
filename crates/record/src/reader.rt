// A record's reader: a buffer with what it counts. A rule of the project has it keep both, above functions on slice and numbers.
ghost use Rattle.std.specs.Prelude.{◌≡◌, ◌+◌, ◌≤◌, length};
ghost use Rattle.model.specs.Layout.{counts_length, entry_length, entry_at};
ghost use Rattle.record.specs.Reader.{IsHead, IsPart};

use crate::layout::{Head, head_at, part_of};
use model::Part;

// A buffer with room for the counts, and its counts. It is copied freely; of a buffer that passed the test a `Record` holds one.
#[derive(Clone, Copy, Debug)]
pub struct Reader<'a> {
    pub bytes: &'a [u8],
    pub head: Head,
    pub ghost room: { counts_length ≤ length bytes.now },
    pub ghost counts: { IsHead bytes.now head },
}

impl<'a> Reader<'a> {
    // A buffer with its counts.
    pub fn open(b: &'a [u8]) -> Reader<'a>
        requires { counts_length ≤ length b.now }
        ensures { result.bytes ≡ b.entry }
    {
        Reader {
            bytes: b,
            head: head_at(b),
        }
    }

    // Where the body of the name at place i stands.
    pub fn part(self, i: usize) -> Part
        requires { entry_at i + entry_length ≤ length self.bytes.now }
        ensures { IsPart self.entry.bytes.now i result }
    {
        part_of(self.bytes, self.head, i)
    }
}
