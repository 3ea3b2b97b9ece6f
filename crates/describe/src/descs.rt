// The descs of two graphs, which go through a description together.
ghost use Rattle.std.specs.Prelude.{◌≡◌, ◌&&◌, leb, length};

// The longest desc, in bytes.
const MAX_DESC: usize = 4096;

// The desc of the graph that a text begins with, and of the other.
#[derive(Clone, Copy)]
pub(crate) struct Descs<'a> {
    pub from: &'a [u8],
    pub to: &'a [u8],
}

impl<'a> Descs<'a> {
    // Whether neither is too long.
    pub(crate) fn are_short(self) -> bool
        ensures { result ≡ (leb (length self.entry.from.now) 4096 && leb (length self.entry.to.now) 4096) }
    {
        self.from.len() <= MAX_DESC && self.to.len() <= MAX_DESC
    }

    // Those of the graphs the other way round.
    pub(crate) fn swapped(self) -> Descs<'a>
        ensures { (result.from.now ≡ self.entry.to.now) × (result.to.now ≡ self.entry.from.now) }
    {
        Descs {
            from: self.to,
            to: self.from,
        }
    }
}
