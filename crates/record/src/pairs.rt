// The pairs of a record, one after the other, each as the two names that it stands for.
ghost use Rattle.record.specs.Holds.{HoldsRecord, PairsIn};
ghost use Rattle.record.specs.Rows.{rows_of};

use crate::layout::{bodies_at, name_in};
use crate::rows::Rows;
use model::Kind;

// Pairs in a record's bytes: the byte at which the bodies of the names begin, and the rows of the places of their names.
#[derive(Clone, Copy, Debug)]
pub struct Pairs<'a> {
    bytes: &'a [u8],
    bodies: usize,
    rows: Rows<'a>,
    ghost within: { PairsIn bytes.now bodies (rows_of rows) },
}

impl<'a> Pairs<'a> {
    ghost use Rattle.std.specs.Prelude.{◌≡◌};
    ghost use Rattle.model.specs.Layout.{shown};
    ghost use Rattle.model.specs.Questions.{pairs_of};
    ghost use Rattle.record.specs.Pairs.{pairs_left};

    // Those of a kind, of a buffer that is a record.
    pub(crate) fn of(bytes: &'a [u8], kind: Kind) -> Pairs<'a>
        requires { HoldsRecord bytes.now }
        ensures { pairs_left result ≡ pairs_of kind (shown bytes.now) }
    {
        Pairs {
            bytes,
            bodies: bodies_at(bytes),
            rows: Rows::pairs(bytes, kind),
        }
    }
}

impl<'a> Iterator for Pairs<'a> {
    ghost use Rattle.std.specs.Iterator.{YieldsFirstBy, item_count};
    ghost use Rattle.record.specs.Pairs.{pair_of, pairs_left};

    type Item = (&'a [u8], &'a [u8]);

    ghost next_gives = { YieldsFirstBy pair_of pairs_left };

    ghost remaining = { item_count pairs_left };

    // The two names of the next pair.
    #[tactic(auto, using(crate::proofs::Listing::read))]
    fn next(&mut self) -> Option<(&'a [u8], &'a [u8])> {
        let (from, to) = self.rows.next()?;
        Some((
            name_in(self.bytes, self.bodies, from),
            name_in(self.bytes, self.bodies, to),
        ))
    }
}
