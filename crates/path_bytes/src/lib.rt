// The path that a search finds, as bytes: how many names it has, for each an entry with its length and the kind of the step that leaves
// it, and the bodies of the names. They are written from the queue of the search; readers of the bytes find its steps here too.
#![tactic(auto)]

mod finding;
mod layout;
mod reading;
mod written;

pub use finding::find_path;
pub use layout::{ENTRY_LENGTH, FIRST_ENTRY, entry_at as bodies_at};
pub use reading::{StepFrom, Steps, name_count, name_length, path_start};
