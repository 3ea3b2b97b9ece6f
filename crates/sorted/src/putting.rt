// Names as ascending numbers for bodies in a pool: how much is in use, the body of a number, and where a name is or would be put in. Numbers and
// pool are two slices that `Tables` lends: a struct of both would be opened by the next function.
ghost use Rattle.std.specs.Prelude.{◌≡◌, ◌<◌, length, map};
ghost use Rattle.std.specs.List.Sorted.{IsSearchInRange};
ghost use Rattle.model.specs.Bytes.{compare_bytes};
ghost use Rattle.model.specs.Statements.{Ascending};
ghost use Rattle.sorted.specs.Sorted.{sought, place_after};
ghost use Rattle.sorted.specs.Tables.{body_in};

// How much of the tables is in use: names, bytes of the pool, and pairs of each kind.
#[derive(Clone, Copy, Debug, Default, PartialEq, Eq)]
pub struct Sizes {
    pub names: usize,
    pub bytes: usize,
    pub subgraph: usize,
    pub translation: usize,
}

// The body that a number of the table of names stands for.
pub fn body(pool: &[u8], r: u32) -> &[u8]
    ensures { result.now ≡ body_in pool.now r }
{
    text::part(pool, (r / 65536) as usize, (r % 65536) as usize)
}

// Looks for a name among those of these numbers, which ascend: gives its place, or the place where it would stand.
pub(crate) fn seek(refs: &[u32], pool: &[u8], name: &[u8]) -> Result<usize, usize>
    requires { Ascending compare_bytes (map (body_in pool.now) refs.now) }
    ensures bound { IsSearchInRange result (length refs.now) }
    ensures value { result ≡ sought compare_bytes name.now (map (body_in pool.now) refs.now) }
{
    refs.binary_search_by(|r| text::compare(body(pool, *r), name))
}

// Looks for a name among those of these numbers, which ascend, at one place first.
pub(crate) fn seek_near(refs: &[u32], pool: &[u8], near: usize, name: &[u8]) -> Result<usize, usize>
    requires { Ascending compare_bytes (map (body_in pool.now) refs.now) }
    ensures bound { IsSearchInRange result (length refs.now) }
    ensures value { result ≡ sought compare_bytes name.now (map (body_in pool.now) refs.now) }
{
    if near < refs.len() && text::same(body(pool, refs[near]), name) {
        return Ok(near);
    }
    seek(refs, pool, name)
}

// The place x after a name was put in at place p, if that made the names more.
pub(crate) fn moved_place(x: usize, p: usize, before: usize, now: usize) -> usize
    requires { x < 65536 }
    ensures { result ≡ place_after before now p x }
{
    if before == now {
        return x;
    }
    x + usize::from(p <= x)
}
