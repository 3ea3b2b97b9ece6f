// The names of the nodes: parts of two lent slices, counted through the first and on through the second.
ghost use Rattle.std.specs.Prelude.{◌≡◌, ◌<◌, length};
ghost use Rattle.search.specs.Spans.{spanned, named};

use text::part;

// Where a name stands, whose length two bytes can say.
#[derive(Clone, Copy, Debug, PartialEq, Eq)]
pub struct Span {
    pub start: u32,
    pub size: u16,
}

impl Span {
    // The part that it stands for, of whichever slice it begins in.
    #[tactic(auto, using(crate::proofs::Spanning::parts))]
    pub fn of<'a>(self, first: &'a [u8], second: &'a [u8]) -> &'a [u8]
        ensures { (result.now ≡ spanned first.now second.now self) × (length result.now < 65536) }
    {
        let start = self.start as usize;
        let size = self.size as usize;
        if start < first.len() {
            return part(first, start, size);
        }
        part(second, start - first.len(), size)
    }
}

// The names of the nodes, by number.
#[derive(Clone, Copy, Debug)]
pub struct Names<'a> {
    pub first: &'a [u8],
    pub second: &'a [u8],
    pub spans: &'a [Span],
}

impl<'a> Names<'a> {
    // The name of a node.
    pub fn name(self, node: usize) -> &'a [u8]
        requires { node < length self.spans.now }
        ensures { (result.now ≡ named self.entry node) × (length result.now < 65536) }
    {
        self.spans[node].of(self.first, self.second)
    }
}
