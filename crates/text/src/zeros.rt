// Whether all bytes from a place on are zero.
ghost use Rattle.std.specs.Prelude.{◌≡◌, ◌≤◌, length, drop};
ghost use Rattle.text.specs.Blocks.{all_zero};

// The bytes that are looked at before a test whether to go on.
const BLOCK: usize = 256;

// Whether all bytes of s are zero. No byte ends the search, so that many are compared at once.
fn is_zero(s: &[u8]) -> bool
    ensures { result ≡ all_zero s.now }
{
    s.iter().fold(true, |zero, x| zero & (*x == 0))
}

// Whether all bytes from `at` on are zero.
pub fn zeros_from(b: &[u8], at: usize) -> bool
    requires { at ≤ length b.now }
    ensures { result ≡ all_zero (drop at b.now) }
{
    let (blocks, rest) = b[at..].as_chunks::<BLOCK>();
    blocks.iter().all(|block| is_zero(block)) && is_zero(rest)
}
