// Appending a byte string to a vector of bytes.
ghost use Rattle.std.specs.Prelude.{◌≡◌, ◌+◌, ◌++◌, ◌≤◌, length};
ghost use Rattle.arrayvec.specs.ArrayVec.{array_vec_len};

use arrayvec::ArrayVec;

// How many bytes are copied at a time. A copy of a length that is not known in advance would need `memmove` of the C library.
const BLOCK: usize = 16;

// Appends a few bytes.
fn append_few<const N: usize>(bytes: &mut ArrayVec<u8, N>, s: &[u8])
    requires { array_vec_len bytes.old + length s.now ≤ N }
    ensures { bytes.new.items ≡ bytes.old.items ++ s.now }
{
    for x in s {
        bytes.push(*x);
    }
}

// Appends a byte string.
pub fn append<const N: usize>(bytes: &mut ArrayVec<u8, N>, s: &[u8])
    requires { array_vec_len bytes.old + length s.now ≤ N }
    ensures { bytes.new.items ≡ bytes.old.items ++ s.now }
{
    let (blocks, rest) = s.as_chunks::<BLOCK>();
    for block in blocks {
        bytes.try_extend_from_slice(block).unwrap();
    }
    append_few(bytes, rest);
}
