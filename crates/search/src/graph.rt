// An ascending table of steps with its index, which says where the steps that leave each node begin.
ghost use Rattle.std.specs.Prelude.{◌≡◌, ℕ, ◌+◌, ◌-◌, ◌*◌, ◌≤◌, ◌<◌, length, get_or, take, drop};
ghost use Rattle.search.specs.Steps.{max_moves};
ghost use Rattle.search.specs.Table.{Rises, Indexed};

use crate::step::Step;

// Where the steps of a node begin, from place e on: one by one, since over all nodes each step is looked at once.
fn seek(steps: &[Step], node: usize, e: usize) -> usize
    requires { (e ≤ length steps.now) × ((i : ℕ) → i < e → get_or steps.now i 0 < node * max_moves) }
    ensures { (result ≤ length steps.now) × ((i : ℕ) → i < result → get_or steps.now i 0 < node * max_moves) × (result < length steps.now → node * max_moves ≤ get_or steps.now result 0) }
{
    match steps[e..].iter().position(|step| node <= step.from()) {
        Some(more) => e + more,
        None => steps.len(),
    }
}

// Where the steps of each node begin; the last number is for the end of those of the last node.
fn index(steps: &[Step], starts: &mut [u16])
    requires { Rises steps.now (length steps.now) × (length steps.now < 65536) }
    ensures { Indexed steps.now starts.new }
{
    let mut e = 0;
    for (node, start) in starts.iter_mut().enumerate() {
        e = seek(steps, node, e);
        *start = e as u16;
    }
}

// The steps, and by node the place of its first; one number more is for the end of the last node's.
#[derive(Clone, Copy, Debug)]
pub struct Graph<'a> {
    pub steps: &'a [Step],
    pub starts: &'a [u16],
    ghost indexed: { Indexed steps.now starts.now },
}

impl<'a> Graph<'a> {
    // A table of steps, with its index made.
    pub fn new(steps: &'a [Step], starts: &'a mut [u16]) -> Graph<'a>
        requires { Rises steps.now (length steps.now) × (length steps.now < 65536) }
        ensures { (result.steps ≡ steps.entry) × (length result.starts.now ≡ length starts.old) × Indexed steps.now result.starts.now }
    {
        index(steps, starts);
        Graph { steps, starts }
    }

    // The steps that leave a node.
    pub fn leaving(self, node: usize) -> &'a [Step]
        requires { node + 1 < length self.starts.now }
        ensures { result.now ≡ take (get_or self.entry.starts.now (node + 1) 0 - get_or self.entry.starts.now node 0) (drop (get_or self.entry.starts.now node 0) self.entry.steps.now) }
    {
        &self.steps[self.starts[node] as usize..self.starts[node + 1] as usize]
    }
}
