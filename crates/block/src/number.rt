// Numbers of four bytes, low byte first. `text` has those of two: std reads each width from an array of its own by a function of its own, so
// that one function over the width would only choose between these two.
ghost use Rattle.std.specs.Prelude.{◌≡◌, ◌+◌, ◌<◌, length};
ghost use Rattle.model.specs.Bytes.{put};
ghost use Rattle.model.specs.Numbers.{number32, le32};

use text::copy;

// The number at byte `at`.
pub fn read32(b: &[u8], at: usize) -> usize
    requires { at + 3 < length b.now }
    ensures { (result ≡ number32 b.now at) × (result < 4294967296) }
{
    u32::from_le_bytes([b[at], b[at + 1], b[at + 2], b[at + 3]]) as usize
}

// Writes a number at byte `at`, and gives the place behind it.
pub fn write32(b: &mut [u8], at: usize, n: usize) -> usize
    requires { at + 3 < length b.old }
    ensures { (result ≡ at + 4) × (b.new ≡ put b.old at (le32 n)) }
{
    copy(b, at, &((n % 4294967296) as u32).to_le_bytes())
}
