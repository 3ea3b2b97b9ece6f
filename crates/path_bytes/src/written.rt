// The bytes of the path that a search found: walked back from the last place to the first, and written front to back.
ghost use Rattle.std.specs.Prelude.{◌≡◌, ◌++◌, ◌+◌, ◌*◌, ◌≤◌, ◌<◌, length};
ghost use Rattle.model.specs.Bytes.{put};
ghost use Rattle.model.specs.Numbers.{le16};
ghost use Rattle.search.specs.Steps.{max_nodes};
ghost use Rattle.search.specs.Queue.{node_at, prev_at, move_at};
ghost use Rattle.search.specs.Names.{kind_of};
ghost use Rattle.search.specs.Spans.{named};
ghost use Rattle.path_bytes.specs.Layout.{entry_at};
ghost use Rattle.path_bytes.specs.Written.{step_number, bodies_to, Readback, Writable, NamesWritten, PathWritten};

use crate::layout::{KIND_IN_ENTRY, entry_at};
use model::{Fault, Kind};
use search::{NodeNames, Step, path_length};
use text::{copy, write16};

// The number for the kind of a name's step in its entry; no step leaves the last name.
fn step_number(kind: Option<Kind>) -> usize
    ensures { result ≡ step_number kind }
{
    match kind {
        Some(kind) => u32::from(kind) as usize,
        None => 2,
    }
}

// Writes the entry of the name at this step: its length and its step's kind.
#[tactic(auto, using(text::proofs::Put::put_append))]
fn put_entry(out: &mut [u8], step: usize, size: usize, kind: Option<Kind>)
    requires { (step < max_nodes) × (entry_at (step + 1) ≤ length out.old) }
    ensures { out.new ≡ put out.old (entry_at step) (le16 size ++ le16 (step_number kind)) }
{
    let entry = entry_at(step);
    write16(out, entry, size);
    write16(out, entry + KIND_IN_ENTRY, step_number(kind));
}

// The path to a place of a search's queue.
#[derive(Clone, Copy)]
pub(crate) struct FoundPath<'a, N> {
    pub names: &'a N,
    pub queue: &'a [Step],
    pub place: usize,
}

impl<'a, N: NodeNames> FoundPath<'a, N> {
    // Its last name.
    fn name(self) -> &'a [u8]
        requires { (self.place < length self.queue.now) × (node_at self.queue.now self.place < length (N.names self.names.now).spans.now) }
        ensures { (result.now ≡ named (N.names self.entry.names.now) (node_at self.entry.queue.now self.entry.place)) × (length result.now < N.lengths) }
    {
        self.names.name(self.queue[self.place].to())
    }

    // The kind of its last step.
    fn last_kind(self) -> Kind
        requires { self.place < length self.queue.now }
        ensures { result ≡ kind_of (move_at self.entry.queue.now self.entry.place) }
    {
        self.queue[self.place].kind()
    }

    // The path without its last step.
    fn before(self) -> FoundPath<'a, N>
        requires { self.place < length self.queue.now }
        ensures { (result.names ≡ self.entry.names) × (result.queue ≡ self.entry.queue) × (result.place ≡ prev_at self.entry.queue.now self.entry.place) }
    {
        FoundPath {
            place: self.queue[self.place].from(),
            ..self
        }
    }

    // How long its names are together.
    fn bodies_length(self) -> usize
        requires { Readback (length (N.names self.names.now).spans.now) self.queue.now self.place }
        ensures { (result ≡ bodies_to (named (N.names self.entry.names.now)) self.entry.queue.now self.entry.place) × (result < N.lengths * max_nodes) }
    {
        let mut path = self;
        let mut total = 0;
        // By the predecessors, up to the first name, as `search::path_length` goes.
        while 0 < path.place {
            total += path.name().len();
            path = path.before();
        }
        total + path.name().len()
    }

    // Writes its names, this many steps from the first: their entries, the last with `kind`, and their bodies from byte `at` on. Gives the
    // place behind them.
    fn put_names(self, step: usize, kind: Option<Kind>, out: &mut [u8], at: usize) -> usize
        requires { Writable (named (N.names self.names.now)) (length (N.names self.names.now).spans.now) self.queue.now self.place step out.old at }
        ensures { NamesWritten (named (N.names self.entry.names.now)) self.entry.queue.now self.entry.place out.old at kind result out.new }
    {
        let name = self.name();
        if step == 0 {
            put_entry(out, 0, name.len(), kind);
            return copy(out, at, name);
        }
        let last = Some(self.last_kind());
        let end = self.before().put_names(step - 1, last, out, at);
        put_entry(out, step, name.len(), kind);
        copy(out, end, name)
    }

    // Writes its bytes to the front of an output, if there is room for them.
    pub(crate) fn write(self, out: &mut [u8]) -> Result<(), Fault>
        requires { Readback (length (N.names self.names.now).spans.now) self.queue.now self.place }
        ensures { PathWritten (named (N.names self.entry.names.now)) self.entry.queue.now self.entry.place out.old result out.new }
    {
        let step = path_length(self.queue, self.place);
        let at = entry_at(step + 1);
        if out.len() < at + self.bodies_length() {
            return Err(Fault::OutputShort);
        }
        write16(out, 0, step + 1);
        self.put_names(step, None, out, at);
        Ok(())
    }
}
