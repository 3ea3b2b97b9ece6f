// What stands in a path's bytes: its first name, and its steps one by one.
ghost use Rattle.std.specs.Prelude.{◌≡◌, ◌+◌, ◌≤◌, ◌<◌, length};
ghost use Rattle.path_bytes.specs.Layout.{first_entry, entry_length, name_count, name_length, step_kind};
ghost use Rattle.path_bytes.specs.Reading.{kind_numbered, StepsIn, PathIn, start_at, path_steps};

use crate::layout::{ENTRY_LENGTH, FIRST_ENTRY, KIND_IN_ENTRY, entry_at};
use model::Kind;
use text::{part, read16};

// How many names a path has.
pub fn name_count(path: &[u8]) -> usize
    requires { first_entry ≤ length path.now }
    ensures { (result ≡ name_count path.now) × (result < 65536) }
{
    read16(path, 0)
}

// How long the name is whose entry stands at this byte.
pub fn name_length(path: &[u8], entry: usize) -> usize
    requires { entry + entry_length ≤ length path.now }
    ensures { (result ≡ name_length path.now entry) × (result < 65536) }
{
    read16(path, entry)
}

// The kind of the step that leaves the name whose entry stands at this byte. Every number has one, so there is nothing that could be refused.
fn step_kind(path: &[u8], entry: usize) -> Kind
    requires { entry + entry_length ≤ length path.now }
    ensures { result ≡ kind_numbered (step_kind path.now entry) }
{
    match read16(path, entry + KIND_IN_ENTRY) {
        0 => Kind::Subgraph,
        _ => Kind::Translation,
    }
}

// A step of a path: the name that it leaves, and its kind.
#[derive(Clone, Copy, Debug, PartialEq, Eq)]
pub struct StepFrom<'a> {
    pub name: &'a [u8],
    pub kind: Kind,
}

// A run of a path's steps: where the entry and the body of the name that the first one leaves stand in its bytes, and how many there are.
#[derive(Clone, Copy, Debug)]
pub struct Steps<'a> {
    path: &'a [u8],
    entry: usize,
    body: usize,
    count: usize,
    ghost here: { StepsIn path.now entry body count },
}

impl<'a> Iterator for Steps<'a> {
    ghost use Rattle.std.specs.Iterator.{YieldsFirstBy, item_count};
    ghost use Rattle.path_bytes.specs.Steps.{step_of, steps_of};

    type Item = StepFrom<'a>;

    ghost next_gives = { YieldsFirstBy step_of steps_of };

    ghost remaining = { item_count steps_of };

    // The next step.
    #[tactic(auto, using(crate::proofs::Stepping::read))]
    fn next(&mut self) -> Option<StepFrom<'a>> {
        if self.count == 0 {
            return None;
        }
        let size = name_length(self.path, self.entry);
        let step = StepFrom {
            name: part(self.path, self.body, size),
            kind: step_kind(self.path, self.entry),
        };
        *self = Steps {
            path: self.path,
            entry: self.entry + ENTRY_LENGTH,
            body: self.body + size,
            count: self.count - 1,
        };
        Some(step)
    }
}

impl<'a> Steps<'a> {
    ghost use Rattle.path_bytes.specs.Steps.{steps_of};

    // How many are left.
    #[tactic(auto, using(crate::proofs::Stepping::length_steps))]
    pub fn len(&self) -> usize
        ensures { (result ≡ length (steps_of self.now)) × (result ≤ 12288) }
    {
        self.count
    }

    // Those of a whole path.
    pub fn of(path: &'a [u8]) -> Steps<'a>
        requires { PathIn path.now }
        ensures { steps_of result ≡ path_steps path.now }
    {
        let count = name_count(path);
        Steps {
            path,
            entry: FIRST_ENTRY,
            body: entry_at(count),
            count: count - 1,
        }
    }
}

// The first name of a path.
pub fn path_start(path: &[u8]) -> &[u8]
    requires { PathIn path.now }
    ensures { result.now ≡ start_at path.now }
{
    let bodies = entry_at(name_count(path));
    part(path, bodies, name_length(path, FIRST_ENTRY))
}
