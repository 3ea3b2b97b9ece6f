// Rows of two numbers that stand one after the other in a buffer: the entries of names, or pairs.
ghost use Rattle.std.specs.Prelude.{◌≡◌, ◌+◌, ◌*◌, ◌≤◌, length, drop};
ghost use Rattle.model.specs.Layout.{pair_length};

use crate::layout::{name_count, pair_count, table_at};
use crate::offsets::{COUNTS_LENGTH, PAIR_LENGTH};
use model::Kind;
use text::read16;

// Rows of four bytes, read one by one: of a name its start and its length, of a pair the places of its two names.
#[derive(Clone, Copy, Debug)]
pub struct Rows<'a> {
    bytes: &'a [u8],
    at: usize,
    count: usize,
    ghost within: { at + pair_length * count ≤ length bytes.now },
}

impl<'a> Rows<'a> {
    ghost use Rattle.model.specs.Layout.{pair_count, table_at};
    ghost use Rattle.record.specs.Holds.{HoldsRecord};
    ghost use Rattle.record.specs.Test.{Under, pairs_at, entries_of};
    ghost use Rattle.record.specs.Rows.{rows_of};

    // The `count` rows from byte `at` on.
    pub(crate) fn new(bytes: &'a [u8], at: usize, count: usize) -> Rows<'a>
        requires { at + pair_length * count ≤ length bytes.now }
        ensures value { rows_of result ≡ pairs_at count (drop at bytes.now) }
        ensures small { Under 65536 (rows_of result) }
    {
        Rows { bytes, at, count }
    }

    // The entries of a buffer that is a record: start and length of each name.
    pub fn entries(bytes: &'a [u8]) -> Rows<'a>
        requires { HoldsRecord bytes.now }
        ensures value { rows_of result ≡ entries_of bytes.now }
        ensures small { Under 65536 (rows_of result) }
    {
        Rows::new(bytes, COUNTS_LENGTH, name_count(bytes))
    }

    // The pairs of a kind of a buffer that is a record: the places of the two names of each.
    pub fn pairs(bytes: &'a [u8], kind: Kind) -> Rows<'a>
        requires { HoldsRecord bytes.now }
        ensures value { rows_of result ≡ pairs_at (pair_count kind bytes.now) (drop (table_at kind bytes.now) bytes.now) }
        ensures small { Under 65536 (rows_of result) }
    {
        Rows::new(bytes, table_at(bytes, kind), pair_count(bytes, kind))
    }
}

impl<'a> Iterator for Rows<'a> {
    ghost use Rattle.std.specs.Iterator.{YieldsFirst, item_count};
    ghost use Rattle.record.specs.Rows.{rows_of};

    type Item = (usize, usize);

    ghost next_gives = { YieldsFirst rows_of };

    ghost remaining = { item_count rows_of };

    // The next row.
    #[tactic(auto, using(crate::proofs::Words::read))]
    fn next(&mut self) -> Option<(usize, usize)> {
        if self.count == 0 {
            return None;
        }
        let row = (read16(self.bytes, self.at), read16(self.bytes, self.at + 2));
        *self = Rows {
            bytes: self.bytes,
            at: self.at + PAIR_LENGTH,
            count: self.count - 1,
        };
        Some(row)
    }
}
