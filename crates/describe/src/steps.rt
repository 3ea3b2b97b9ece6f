// The steps of a path that the description lists, and their lines.
ghost use Rattle.std.specs.Prelude.{◌≡◌, ◌<◌, length};
ghost use Rattle.model.specs.Describe.{after_last_empty, step_lines, graph_lines};
ghost use Rattle.text.specs.Appending.{Appends};
ghost use Rattle.path_bytes.specs.Steps.{steps_of};

use crate::lines::{append_graph, append_relationship};
use path_bytes::Steps;

// Of a path's steps, those after the last one that leaves an empty name.
pub(crate) fn after_last_empty<'a>(steps: Steps<'a>) -> Steps<'a>
    ensures { steps_of result ≡ after_last_empty (steps_of steps.entry) }
{
    let mut listed = steps;
    let mut rest = steps;
    // Not a `for`, which would keep what is left of the steps to itself.
    while let Some(step) = rest.next() {
        if step.name.is_empty() {
            listed = rest;
        }
    }
    listed
}

// Appends the lines of the steps, numbered from 1.
pub(crate) fn append_relationships<'a>(out: &mut [u8], at: usize, steps: Steps<'a>) -> usize
    ensures { Appends out.old at (step_lines 1 (steps_of steps.entry)) result out.new }
{
    let mut q = at;
    for (i, step) in steps.enumerate() {
        q = append_relationship(out, q, i + 1, step.kind);
    }
    q
}

// Appends the lines of the names that the steps leave, numbered from 1, and that of the last name behind them.
pub(crate) fn append_graphs<'a>(out: &mut [u8], at: usize, steps: Steps<'a>, last: &[u8]) -> usize
    ensures { Appends out.old at (graph_lines 1 (steps_of steps.entry) last.now) result out.new }
{
    let count = steps.len();
    let mut q = at;
    for (i, step) in steps.enumerate() {
        q = append_graph(out, q, i + 1, step.name);
    }
    append_graph(out, q, count + 1, last)
}
