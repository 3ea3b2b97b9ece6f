// A record's three tags put into a tag list at once; and the laws that tag lists are finite maps, and what each number speaks of.
//
// `set_graph_name` takes any slices of any length and equals a definition of `model/specs/TagOutcome.antt`. What is judged is judged before
// the list is touched.
#![tactic(auto)]

mod change;
mod three;

pub use three::set_graph_name;
