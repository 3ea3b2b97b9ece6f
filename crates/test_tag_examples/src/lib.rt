// docs/FORMAT.md, example 19, which the program `examples` runs: tag lists at their limits and past them.
#![tactic(auto)]

mod blocks;
mod calls;
mod limits;

use test_examples::Counts;

// All of example 19.
pub fn run_tags(counts: &mut Counts) {
    limits::tags_limit(counts);
    limits::key_limit(counts);
    limits::value_limit(counts);
    limits::capitals(counts);
    limits::record_limit(counts);
    blocks::both_blocks(counts);
}
