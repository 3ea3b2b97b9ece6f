// The exported functions that read and write texts, and the questions, called on the byte strings that the fixed list sets, and held to the numbers
// of its lines.
#![tactic(auto)]

mod asked;
mod tags;
mod texts;

pub use asked::Ask;
pub use tags::set_tags_agrees;
pub use texts::Read;
