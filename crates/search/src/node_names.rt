// The names of nodes, in whichever spans they stand.
ghost use Rattle.std.specs.Prelude.{◌≡◌, ℕ, ◌<◌, ◌≤◌, length};
ghost use Rattle.std.proofs.Common.{rules};
ghost use Rattle.search.specs.declared.names.Names.{Names};
ghost use Rattle.search.specs.declared.short_names.ShortNames.{ShortNames};
ghost use Rattle.search.specs.Extent.{span_lengths};
ghost use Rattle.search.specs.Spans.{named, plain};

use crate::names::Names;
use crate::short_names::ShortNames;

// The names of nodes, by number, each shorter than a bound.
pub trait NodeNames: Copy {
    ghost names: { Self → Names };

    ghost lengths: { ℕ };

    // The name of a node.
    fn name(&self, node: usize) -> &[u8]
        requires { node < length (names self.now).spans.now }
        ensures { (result.now ≡ named (names self.now) node) × (length result.now < lengths) };

    ghost bounded: { lengths ≤ 65536 };
}

impl<'a> NodeNames for Names<'a> {
    ghost names = { λ n. n };

    ghost lengths = { 65536 };

    fn name(&self, node: usize) -> &[u8] {
        Names::name(*self, node)
    }

    ghost bounded = { Prim.search rules };
}

impl<'a> NodeNames for ShortNames<'a> {
    ghost names = { plain };

    ghost lengths = { span_lengths };

    fn name(&self, node: usize) -> &[u8] {
        ShortNames::name(*self, node)
    }

    ghost bounded = { Prim.search rules };
}
