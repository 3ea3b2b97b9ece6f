// Runs the examples of docs/FORMAT.md that are not marked T, and the GFA 1 specification's own header example. A line for each answer says what
// came out, and whether it is as stated; the last line counts both.
#![tactic(auto)]

mod description;
mod program;

use test_examples::{Counts, run_lines, run_offsets, run_sizes};
use test_output::{print, print_number};
use test_tag_examples::run_tags;

fn main() {
    let mut counts = Counts::default();
    run_sizes(&mut counts);
    description::run(&mut counts);
    program::run(&mut counts);
    run_offsets(&mut counts);
    run_tags(&mut counts);
    run_lines(&mut counts);
    print_number(counts.stated);
    print(b" as stated, ");
    print_number(counts.differ);
    print(b" differ\n");
}
