// Bytes moved within a block, and cleared. A move begins on the side that it goes to, so that no byte is written over before it is read.
//
// Bytes are moved by loops, which need nothing from outside: `copy_within`, where their number is known to the caller alone, calls `memmove`.
ghost use Rattle.std.specs.Prelude.{◌≡◌, ◌+◌, ◌≤◌, length, take, drop, replicate};
ghost use Rattle.model.specs.Bytes.{put};

// Moves n bytes towards the end of b: the last byte first.
fn move_up(b: &mut [u8], from: usize, to: usize, n: usize)
    requires { (from ≤ to) × (to + n ≤ length b.old) }
    ensures { b.new ≡ put b.old to (take n (drop from b.old)) }
{
    for i in (0..n).rev() {
        b[to + i] = b[from + i];
    }
}

// Moves n bytes towards the start of b: the first byte first.
fn move_down(b: &mut [u8], from: usize, to: usize, n: usize)
    requires { (to ≤ from) × (from + n ≤ length b.old) }
    ensures { b.new ≡ put b.old to (take n (drop from b.old)) }
{
    for i in 0..n {
        b[to + i] = b[from + i];
    }
}

// Moves n bytes from one place to another, where the two may overlap. To the place where they stand none is written.
#[tactic(auto, using(crate::proofs::Moves::stands))]
pub fn move_bytes(b: &mut [u8], from: usize, to: usize, n: usize)
    requires { (from + n ≤ length b.old) × (to + n ≤ length b.old) }
    ensures { b.new ≡ put b.old to (take n (drop from b.old)) }
{
    if from == to {
        return;
    }
    if from < to {
        move_up(b, from, to, n);
    } else {
        move_down(b, from, to, n);
    }
}

// Makes n bytes from `at` on zero.
#[tactic(auto, using(text::proofs::Put::put_part))]
pub fn clear(b: &mut [u8], at: usize, n: usize)
    requires { at + n ≤ length b.old }
    ensures { b.new ≡ put b.old at (replicate n 0) }
{
    b[at..at + n].fill(0);
}
