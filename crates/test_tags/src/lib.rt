// The exported functions of tag lists, called on the byte strings that the fixed list sets, and held to the numbers of its lines.
#![tactic(auto)]

mod changes;
mod look_ups;

pub use changes::Change;
pub use look_ups::LookUp;
