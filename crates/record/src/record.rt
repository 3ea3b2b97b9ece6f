// A record: a buffer that was tested, with its four counts, seen as the graph name that it means.
ghost use Rattle.std.specs.Prelude.{◌≡◌, ◌≤◌, true, false, length, slice_get};
ghost use Rattle.std.specs.Option.{option_copied};
ghost use Rattle.model.specs.Record.{names, any_long, max_names, max_pairs};
ghost use Rattle.model.specs.Opening.{is_some, opened, record_in, two_records};
ghost use Rattle.model.specs.Questions.{mapped, part_of, pair_parts, pairs_of};

use crate::layout;
use crate::pairs::Pairs;
use crate::reader::Reader;
use crate::validity::{check, check_both};
use model::{Fault, Kind, PairParts, Part};
use std::marker::Model;

// A buffer that is a record, with what it counts: a reader whose buffer passed the test. The reader is copied where the record can't be.
#[derive(Clone, Drop)]
pub struct Record<'a> {
    reader: Reader<'a>,
}

impl<'a> Model for Record<'a> {
    ghost use Rattle.model.specs.Record.{GraphName};
    ghost use Rattle.model.specs.Layout.{shown};
    ghost use Rattle.record.specs.Holds.{IsReader};

    ghost Value = { GraphName };

    ghost view = { λ r. shown r.reader.bytes.now };

    ghost invariant = { λ r. IsReader r.reader.bytes.now r.reader.head };
}

impl<'a> Record<'a> {
    ghost use Rattle.model.specs.Layout.{shown, decode};
    ghost use Rattle.record.specs.Holds.{HoldsRecord, IsOwnPlace};
    ghost use Rattle.record.specs.Pairs.{pairs_left};

    // The record that a buffer is: refused for its length, or else for its contents.
    #[tactic(auto, using(crate::proofs::Opening::opens))]
    pub fn open(b: &'a [u8]) -> Result<Record<'a>, Fault>
        ensures { result ≡ opened (record_in b.now) }
    {
        check(b)?;
        Ok(Record::of(b))
    }

    // The records that two buffers are: refused for the length of either, or else for the contents of either.
    pub fn open_both(b: &'a [u8], c: &'a [u8]) -> Result<(Record<'a>, Record<'a>), Fault>
        ensures { result ≡ opened (two_records b.now c.now) }
    {
        check_both(b, c)?;
        Ok((Record::of(b), Record::of(c)))
    }

    // The record that a buffer is known to be.
    pub fn of(b: &'a [u8]) -> Record<'a>
        requires { is_some (decode b.now) ≡ true }
        ensures { result ≡ shown b.now }
    {
        Record {
            reader: Reader::open(b),
        }
    }

    // Its reader.
    pub fn reader(&self) -> Reader<'a>
        ensures value { shown result.bytes.now ≡ self.now }
        ensures held { HoldsRecord result.bytes.now }
    {
        let Record { reader } = self;
        *reader
    }

    // The buffer.
    pub fn bytes(&self) -> &'a [u8]
        ensures value { shown result.now ≡ self.now }
        ensures held { HoldsRecord result.now }
    {
        self.reader.bytes
    }

    // How many names there are.
    pub fn name_count(&self) -> usize
        ensures value { result ≡ length (names self.now) }
        ensures most { result ≤ max_names }
    {
        self.reader.head.names
    }

    // How many pairs of a kind there are.
    pub fn pair_count(&self, kind: Kind) -> usize
        ensures value { result ≡ length (pairs_of kind self.now) }
        ensures most { result ≤ max_pairs }
    {
        self.reader.head.pairs(kind)
    }

    // The pairs of a kind, one by one; and that the names of a record are short.
    pub fn pairs(&self, kind: Kind) -> Pairs<'a>
        ensures value { pairs_left result ≡ pairs_of kind self.now }
        ensures short { any_long (names self.now) ≡ false }
    {
        Pairs::of(self.reader.bytes, kind)
    }

    // The own name, if there is one.
    pub fn own_name(&self) -> Option<&'a [u8]>
        ensures { option_copied result ≡ self.now.name }
    {
        layout::own_name(self.reader.bytes)
    }

    // The place of the own name, if there is one.
    pub fn own_place(&self) -> Option<usize>
        ensures { IsOwnPlace self.now result }
    {
        layout::own_place(self.reader.bytes)
    }

    // Where the own name stands, if there is one.
    #[tactic(auto, using(crate::proofs::Meaning::own_part_absent))]
    pub fn own_part(&self) -> Option<Part>
        ensures { result ≡ mapped (part_of self.now) self.now.name }
    {
        let place = layout::own_place(self.reader.bytes)?;
        Some(self.reader.part(place))
    }

    // Where the name at a place stands, if there are as many.
    #[tactic(auto, using(crate::proofs::Meaning::part_absent))]
    pub fn part(&self, i: usize) -> Option<Part>
        ensures { result ≡ mapped (part_of self.now) (slice_get (names self.now) i) }
    {
        if self.reader.head.names <= i {
            return None;
        }
        Some(self.reader.part(i))
    }

    // Where the names of the pair of a kind at a place stand, if there are as many.
    #[tactic(auto, using(crate::proofs::Meaning::pair_small, crate::proofs::Meaning::pair_parts_absent))]
    pub fn pair_parts(&self, kind: Kind, i: usize) -> Option<PairParts>
        ensures { result ≡ mapped (pair_parts self.now) (slice_get (pairs_of kind self.now) i) }
    {
        let reader = self.reader;
        let b = reader.bytes;
        let head = reader.head;
        if head.pairs(kind) <= i {
            return None;
        }
        let at = layout::pair_at(b, kind, i);
        Some(PairParts {
            from: reader.part(layout::pair_from(b, at)),
            to: reader.part(layout::pair_to(b, at)),
        })
    }
}
