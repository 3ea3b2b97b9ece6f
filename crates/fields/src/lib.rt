// The fields of header lines and of tags: what each says by itself, and which one of a text is next.
#![tactic(auto)]

mod field;
mod line;
mod step;

pub use field::{Content, Source, typed_field_is_string};
pub use line::Field;
pub use step::{Fields, Tally};
