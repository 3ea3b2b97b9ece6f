// The sizes of a tag list, as `model/specs/TagList.antt` has them, and where its entries stand.
ghost use Rattle.std.specs.Prelude.{◌≡◌, ◌^◌, ◌<◌};
ghost use Rattle.model.specs.TagList.{keys_after};

// The most tags.
pub const MAX_TAGS: usize = 32;

// The longest key, in bytes.
pub const MAX_KEY: usize = 64;

// The longest value, in bytes.
pub const MAX_VALUE: usize = 8192;

// The count that a list begins with.
pub const TAG_COUNT_LENGTH: usize = 4;

// The lengths of a key and of its value.
pub const TAG_ENTRY_LENGTH: usize = 8;

// Every block has this length.
pub const TAGS_LENGTH: usize = 264452;

// Where the entry of the tag at a place stands; for the count in the place's stead, where the first key stands.
pub fn entry_start(place: usize) -> usize
    requires { keys_after place < 2 ^ 64 }
    ensures { result ≡ keys_after place }
{
    TAG_COUNT_LENGTH + TAG_ENTRY_LENGTH * place
}
