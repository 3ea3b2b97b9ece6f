// The fixed list of answers: its lines, which are words, numbers and bytes, the byte strings that it sets by name, the numbers of a call held to
// those of its line, and the counts of what agreed.
#![tactic(auto)]

mod bytes;
mod counting;
mod holders;
mod lines;

pub use counting::{ENTRIES, Tally};
pub use holders::{Holder, Holders};
pub use lines::{Numbers, UNWRITTEN, cut};
