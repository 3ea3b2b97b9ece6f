// What the program `examples` runs apart from whole records: examples 14 and 18 of docs/FORMAT.md, header lines by themselves, and what came
// out printed beside what was stated.
#![tactic(auto)]

mod lines;
mod offsets;
mod output;
mod sizes;

pub use lines::run_lines;
pub use offsets::run_offsets;
pub use output::{Counts, number_of};
pub use sizes::run_sizes;
