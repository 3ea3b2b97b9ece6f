// Where the parts of a path's bytes stand: the number of its names, an entry for each, and the bodies.
ghost use Rattle.std.specs.Prelude.{◌≡◌, ◌<◌};
ghost use Rattle.path_bytes.specs.Layout.{entry_at};

// Where the first entry stands: behind the number of names.
pub const FIRST_ENTRY: usize = 2;

// An entry is the length of a name and the kind of the step that leaves it, two bytes each.
pub const ENTRY_LENGTH: usize = 4;

// Where the kind stands in an entry.
pub(crate) const KIND_IN_ENTRY: usize = 2;

// Where the entry of a name stands, by its place on the path. The bodies begin where the entry after the last would: `bodies_at`, by the number
// of names.
pub fn entry_at(i: usize) -> usize
    requires { i < 65536 }
    ensures { result ≡ entry_at i }
{
    FIRST_ENTRY + ENTRY_LENGTH * i
}
