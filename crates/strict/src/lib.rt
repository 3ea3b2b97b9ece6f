// The strict reading of a line: `H`, then typed fields, each with a value as its type asks, and no tag twice.
#![tactic(auto)]

mod class;
mod line;
mod number;
mod parts;
mod tag;
mod value;

pub use line::check_strict;
pub use value::{fine_field, fine_value};
