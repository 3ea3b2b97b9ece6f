// The single lines of a description.
ghost use Rattle.std.specs.Prelude.{◌<◌};
ghost use Rattle.std.specs.Option.{option_copied};
ghost use Rattle.model.specs.Describe.{name_is_for, relation_words, graph_line, or_no_name};
ghost use Rattle.text.specs.Appending.{Appends};
ghost use Rattle.describe.specs.Lines.{relationship_line};

use model::Kind;
use text::{append, append_decimal};

// Appends the line that says which desc graph n has.
pub(crate) fn append_description(out: &mut [u8], at: usize, n: usize, desc: &[u8]) -> usize
    ensures { Appends out.old at (name_is_for n desc.now) result out.new }
{
    let p = append(out, at, b"Name ");
    let q = append_decimal(out, p, n);
    let r = append(out, q, b" is for ");
    let s = append(out, r, desc);
    append(out, s, b"\n")
}

// Appends the words for a step of this kind.
fn append_relation(out: &mut [u8], at: usize, kind: Kind) -> usize
    ensures { Appends out.old at (relation_words kind) result out.new }
{
    match kind {
        Kind::Subgraph => append(out, at, b" is a subgraph of graph "),
        Kind::Translation => append(out, at, b" translates to graph "),
    }
}

// Appends the line of the step from graph i to the next.
pub(crate) fn append_relationship(out: &mut [u8], at: usize, i: usize, kind: Kind) -> usize
    requires { i < 65535 }
    ensures { Appends out.old at (relationship_line i kind) result out.new }
{
    let p = append(out, at, b"Graph ");
    let q = append_decimal(out, p, i);
    let r = append_relation(out, q, kind);
    let s = append_decimal(out, r, i + 1);
    append(out, s, b"\n")
}

// Appends the line that names graph i.
pub(crate) fn append_graph(out: &mut [u8], at: usize, i: usize, name: &[u8]) -> usize
    ensures { Appends out.old at (graph_line i name.now) result out.new }
{
    let p = append_decimal(out, at, i);
    let q = append(out, p, b"\t");
    let r = append(out, q, name);
    append(out, r, b"\n")
}

// Appends the line that names graph i by its own name, or says that it has none.
pub(crate) fn append_own_graph(out: &mut [u8], at: usize, i: usize, own: Option<&[u8]>) -> usize
    ensures { Appends out.old at (graph_line i (or_no_name (option_copied own.entry))) result out.new }
{
    append_graph(out, at, i, own.unwrap_or(b"(no name)"))
}
