// The two texts: of a path, and of two graphs with no path between them.
ghost use Rattle.std.specs.Option.{option_copied};
ghost use Rattle.model.specs.Describe.{describe_path, describe_none};
ghost use Rattle.text.specs.Appending.{Appends};
ghost use Rattle.path_bytes.specs.Steps.{steps_of};

use crate::descs::Descs;
use crate::lines::{append_description, append_own_graph};
use crate::steps::{append_graphs, append_relationships};
use path_bytes::Steps;
use text::append;

// Appends the text of a path that lists these steps and the last name.
pub(crate) fn append_path<'a>(out: &mut [u8], steps: Steps<'a>, last: &[u8], descs: Descs) -> usize
    ensures { Appends out.old 0 (describe_path last.now (steps_of steps.entry) descs.entry.from.now descs.entry.to.now) result out.new }
{
    let p = append_description(out, 0, 1, descs.from);
    let q = append_relationships(out, p, steps);
    let r = append_description(out, q, steps.len() + 1, descs.to);
    let s = append(out, r, b"With graph names:\n");
    append_graphs(out, s, steps, last)
}

// Appends the text of two graphs with no path, which have these own names, or none.
pub(crate) fn append_no_path(
    out: &mut [u8],
    own: Option<&[u8]>,
    other: Option<&[u8]>,
    descs: Descs,
) -> usize
    ensures { Appends out.old 0 (describe_none (option_copied own.entry) (option_copied other.entry) descs.entry.from.now descs.entry.to.now) result out.new }
{
    let p = append_description(out, 0, 1, descs.from);
    let q = append_description(out, p, 2, descs.to);
    let r = append(out, q, b"With graph names:\n");
    let s = append_own_graph(out, r, 1, own);
    append_own_graph(out, s, 2, other)
}
