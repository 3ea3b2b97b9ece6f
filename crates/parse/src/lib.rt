// Header lines and tags read into a record, field by field.
//
// `reading` takes the fields of a whole text one after the other, `refusal` says why a reading is refused, and where, and `finish` writes the
// record. `header` and `tags` have the two public readings.
#![tactic(auto)]

mod finish;
mod header;
mod reading;
mod refusal;
mod tags;

pub use header::from_header_lines;
pub use refusal::Refusal;
pub use tags::from_tags;
