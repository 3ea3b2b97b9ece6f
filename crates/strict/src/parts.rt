// The parts of a byte string between separators, one after the other.
ghost use Rattle.std.specs.Prelude.{◌≡◌};
ghost use Rattle.model.specs.Bytes.{index_of};

use text::find_byte;

// How many bytes are looked at one by one before the others are searched: most parts are short, and a search costs more than these.
const NEAR: usize = 16;

// The place of the first x of s, or the length where there is none.
fn end_of_part(s: &[u8], x: u8) -> usize
    ensures { result ≡ index_of x s.now }
{
    let near = NEAR.min(s.len());
    match s[..near].iter().position(|y| *y == x) {
        Some(end) => end,
        None => find_byte(s, near, x),
    }
}

// The parts that are left to give: those of `rest`, the last of which has no separator behind it, or none.
#[derive(Clone, Copy)]
pub(crate) struct Parts<'a> {
    rest: Option<&'a [u8]>,
    separator: u8,
}

impl<'a> Parts<'a> {
    ghost use Rattle.model.specs.Bytes.{split};
    ghost use Rattle.strict.specs.Parts.{parts_left};

    // All parts of s.
    pub(crate) fn of(s: &'a [u8], separator: u8) -> Parts<'a>
        ensures { parts_left result ≡ split separator s.now }
    {
        Parts {
            rest: Some(s),
            separator,
        }
    }
}

impl<'a> Iterator for Parts<'a> {
    ghost use Rattle.std.specs.Iterator.{YieldsFirstRef, item_count};
    ghost use Rattle.strict.specs.Parts.{parts_left};

    type Item = &'a [u8];

    ghost next_gives = { YieldsFirstRef parts_left };

    ghost remaining = { item_count parts_left };

    // The next part.
    #[tactic(auto, using(crate::proofs::Parting::parting))]
    fn next(&mut self) -> Option<&'a [u8]> {
        let rest = self.rest?;
        let end = end_of_part(rest, self.separator);
        self.rest = rest.get(end + 1..);
        Some(&rest[..end])
    }
}
