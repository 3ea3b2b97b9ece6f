// Between the working tables and records: the pairs of a record put in, the sizes judged, what is within them stored.
#![tactic(auto)]

mod judging;
mod merging;
mod storing;

pub use judging::{keep_named, size_fault};
pub use merging::add_pairs;
pub use storing::store;
