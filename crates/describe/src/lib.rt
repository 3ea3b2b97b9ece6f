// The description of how the graphs of two records are related, as the Rust words it.
//
// The public function takes any slices and equals the definition `relationship_written` of `model/specs/Written.antt`.
#![tactic(auto)]

mod descs;
mod direction;
mod lines;
mod relationship;
mod steps;
mod texts;

pub use relationship::describe_relationship;
