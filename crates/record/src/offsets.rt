// The sizes and offsets of a record, as `model/specs/Record.antt` and `Layout.antt` have them: no other file of the libraries
// knows these numbers.
ghost use Rattle.std.specs.Prelude.{◌≡◌, ◌+◌, ◌*◌, ◌<◌, length};
ghost use Rattle.model.specs.Layout.{record_length, entry_at, bodies_after};

// Every record buffer has this length.
pub const RECORD_LENGTH: usize = 32768;

// The four counts that a record begins with.
pub const COUNTS_LENGTH: usize = 8;

// Start and length of a name.
pub const ENTRY_LENGTH: usize = 4;

// The places of a pair's two names.
pub const PAIR_LENGTH: usize = 4;

// The longest name, in bytes.
pub const MAX_NAME_BYTES: usize = 256;

// The most distinct names.
pub const MAX_NAMES: usize = 512;

// The most pairs of each kind.
pub const MAX_PAIRS: usize = 1024;

// The most bytes of all distinct names together.
pub const MAX_BODIES_BYTES: usize = 22520;

// A buffer that holds the empty record: all zeros.
pub fn empty_record() -> [u8; RECORD_LENGTH]
    ensures { length result ≡ record_length }
{
    [0; RECORD_LENGTH]
}

// Where entry i begins; the pairs begin where the entry after the last would.
pub fn entry_at(i: usize) -> usize
    requires { entry_at i < 18446744073709551616 }
    ensures { result ≡ entry_at i }
{
    COUNTS_LENGTH + ENTRY_LENGTH * i
}

// Where the bodies begin, after n entries and k pairs of both kinds together.
pub fn bodies_after(n: usize, k: usize) -> usize
    requires { (n < 1048576) × (k < 1048576) }
    ensures { result ≡ bodies_after n k }
{
    entry_at(n) + PAIR_LENGTH * k
}
