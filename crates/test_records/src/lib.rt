// The exported functions that look at records and change them, called on the byte strings that the fixed list sets, and held to the numbers of
// its lines.
#![tactic(auto)]

mod edits;
mod records;

pub use edits::Edit;
pub use records::Look;
