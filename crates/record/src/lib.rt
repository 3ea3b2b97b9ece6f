// Records: the test of a buffer, and where things stand in one.
//
// The functions of `validity` take any slice of any length. Those of `layout`, `reader` and `writing` ask that what they read or write
// lies within the slice.
#![tactic(auto)]

mod layout;
mod offsets;
mod pairs;
mod reader;
mod record;
mod rows;
mod test;
mod validity;
mod writing;

pub use layout::{
    Head, bodies_at, body_length, body_start, head_at, name_at, name_count, name_in, own_name,
    own_place, pair_at, pair_count, pair_from, pair_to, part_of, table_at,
};
pub use offsets::{
    MAX_BODIES_BYTES, MAX_NAME_BYTES, MAX_NAMES, MAX_PAIRS, PAIR_LENGTH, RECORD_LENGTH,
    empty_record,
};
pub use pairs::Pairs;
pub use reader::Reader;
pub use record::Record;
pub use rows::Rows;
pub use validity::{check, check_both, is_record};
pub use writing::{write_counts, write_entry, write_pair};
