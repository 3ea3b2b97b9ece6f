// Room for tables and texts: arrays of any size, whose elements are copied. They stand where a Vec would: the library has no heap.
ghost use Rattle.std.specs.Prelude.{◌≡◌, ◌+◌, replicate};

// An array of N elements that are all x.
pub fn filled<T: Copy, const N: usize>(x: T) -> [T; N]
    ensures { result ≡ replicate N x }
{
    [x; N]
}
