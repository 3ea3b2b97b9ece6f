// Two ascending tables of steps as one.
ghost use Rattle.std.specs.Prelude.{◌≡◌, ◌++◌, ◌+◌, ◌≤◌, length, take};
ghost use Rattle.search.specs.Table.{Mergeable, Merged};

use crate::step::Step;

// Writes the rest of a table behind the first n steps of another; gives how many that makes. What `text::copy` is for bytes, here for what is
// said of the first steps alone.
fn append_rest(rest: &[Step], out: &mut [Step], n: usize) -> usize
    requires { n + length rest.now ≤ length out.old }
    ensures { (take result out.new ≡ take n out.old ++ rest.now) × (result ≡ n + length rest.now) }
{
    for (i, step) in rest.iter().enumerate() {
        out[n + i] = *step;
    }
    n + rest.len()
}

// Two ascending tables as one, what stands in both once; gives how many steps that makes.
pub fn merge(a: &[Step], b: &[Step], out: &mut [Step]) -> usize
    requires { Mergeable a.now b.now out.old }
    ensures { Merged a.now b.now out.new result }
{
    let mut i = 0;
    let mut j = 0;
    let mut n = 0;
    // By two cursors, without a branch: after each step one table or both go on. An iterator that joins two would say each time which it was.
    while i < a.len() && j < b.len() {
        let x = a[i];
        let y = b[j];
        out[n] = x.min(y);
        i += usize::from(x <= y);
        j += usize::from(y <= x);
        n += 1;
    }
    let m = append_rest(&a[i..], out, n);
    append_rest(&b[j..], out, m)
}
