// The names of the nodes where they are short, as a record's are. Types apart from those of `names`: a bound that is a const parameter was
// tried, and a slice of spans with one couldn't be lent.
ghost use Rattle.std.specs.Prelude.{◌≡◌, ◌<◌, length};
ghost use Rattle.search.specs.Extent.{span_lengths};
ghost use Rattle.search.specs.Spans.{spanned, named, plain};

use std::marker::Model;
use text::part;

// The length of a name in a short span is below this.
pub const SPAN_LENGTHS: u32 = 512;

// Where a short name stands.
#[derive(Clone, Copy, Debug, PartialEq, Eq)]
pub struct ShortSpan {
    pub start: u32,
    pub size: u16,
}

impl Model for ShortSpan {
    ghost use Rattle.std.specs.Prelude.{◌<◌};
    ghost use Rattle.search.specs.declared.short_names.TheConstants.{SPAN_LENGTHS};
    ghost use Rattle.search.specs.Extent.{Extent};

    ghost Value = { Extent };

    ghost view = { λ span. record { start = span.start; size = span.size } };

    ghost invariant = { λ span. span.size < SPAN_LENGTHS };

    ghost inverse = { λ extent. record { start = extent.start; size = extent.size } };
}

impl ShortSpan {
    // The part that it stands for, of whichever slice it begins in.
    #[tactic(auto, using(crate::proofs::Spanning::parts))]
    pub fn of<'a>(self, first: &'a [u8], second: &'a [u8]) -> &'a [u8]
        ensures { (result.now ≡ spanned first.now second.now self) × (length result.now < span_lengths) }
    {
        let start = self.start as usize;
        let size = self.size as usize;
        if start < first.len() {
            return part(first, start, size);
        }
        part(second, start - first.len(), size)
    }
}

// The names of the nodes, by number.
#[derive(Clone, Copy, Debug)]
pub struct ShortNames<'a> {
    pub first: &'a [u8],
    pub second: &'a [u8],
    pub spans: &'a [ShortSpan],
}

impl<'a> ShortNames<'a> {
    // The name of a node.
    pub fn name(self, node: usize) -> &'a [u8]
        requires { node < length self.spans.now }
        ensures { (result.now ≡ named (plain self.entry) node) × (length result.now < span_lengths) }
    {
        self.spans[node].of(self.first, self.second)
    }
}
