// Writing a record as header lines and tags, and a refusal as the Rust's error text; and the laws that such a text reads back
// as the same record.
//
// A public function takes any slices of any length and equals a definition of `model/specs/Written.antt`; `write_text`, by which each writes its
// text, takes a closure that may be called.
#![tactic(auto)]

mod header;
mod message;
mod output;
mod pairs;
mod tags;

pub use header::{to_gaf_header_lines, to_gfa_header_lines};
pub use message::error_message;
pub use output::write_text;
pub use tags::set_tags;
