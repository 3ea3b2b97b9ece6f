// Making and changing records: the operations on record buffers, and the change over the working tables that they share.
#![tactic(auto)]

mod changing;
mod merging;
mod operations;

pub use operations::{
    add_relationships, add_subgraph, add_translation, add_translation_to, make_subgraph_of, new,
};
