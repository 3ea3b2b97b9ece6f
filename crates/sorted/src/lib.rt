// The working tables that reading, adding and merging share: names and pairs in ascending order, and a pool of bodies; a record loaded, and
// what is put in. Bytes are appended to a vector here, for what stands above too.
#![tactic(auto)]

mod appending;
mod inserting;
mod loading;
mod numbers;
mod putting;
mod tables;

pub use appending::append;
pub use putting::{Sizes, body};
pub use tables::Tables;
