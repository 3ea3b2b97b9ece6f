// One text put in the place of another inside a block: what follows moves along, and behind it all is zero.
ghost use Rattle.std.specs.Prelude.{◌≡◌, true, ◌++◌, ◌+◌, ◌-◌, ◌≤◌, length, drop};
ghost use Rattle.text.specs.Blocks.{all_zero};
ghost use Rattle.block.specs.Splice.{spliced, slid};

use crate::moving::{clear, move_bytes};
use text::copy;

// Moves the bytes between `from` and `end` to `to`, and clears what they leave behind them.
#[tactic(auto, using(crate::proofs::Spliced::slides))]
fn slide(b: &mut [u8], end: usize, from: usize, to: usize)
    requires { (from ≤ end) × (end ≤ length b.old) × (to + (end - from) ≤ length b.old) × (all_zero (drop end b.old) ≡ true) }
    ensures { b.new ≡ slid b.old end from to }
{
    let n = end - from;
    move_bytes(b, from, to, n);
    if from <= to {
        return;
    }
    clear(b, to + n, from - to);
}

// Puts t and then u in the place of the `old` bytes at `at`. The bytes of b end at `end`, and behind it all is zero.
#[tactic(auto, using(crate::proofs::Spliced::splice_two))]
pub fn splice(b: &mut [u8], end: usize, at: usize, old: usize, t: &[u8], u: &[u8])
    requires { (at + old ≤ end) × (end ≤ length b.old) × (end + length t.now + length u.now ≤ length b.old + old) × (all_zero (drop end b.old) ≡ true) }
    ensures { b.new ≡ spliced b.old end at old (t.now ++ u.now) }
{
    slide(b, end, at + old, at + t.len() + u.len());
    let p = copy(b, at, t);
    copy(b, p, u);
}
