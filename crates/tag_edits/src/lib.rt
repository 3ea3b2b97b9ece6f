// Changes of a tag list: tags exchanged in place, and a tag set or removed by its key.
//
// `insert` and `remove` take any slices of any length and equal definitions of `model/specs/TagOutcome.antt`. What is judged is judged before
// the list is touched.
#![tactic(auto)]

mod exchange;
mod one;

pub use exchange::{delete, set};
pub use one::{insert, remove};
