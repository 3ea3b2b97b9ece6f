// docs/FORMAT.md, example 15: A is a subgraph of B, and their relationship is described with the texts p and q, self being A.
use crate::program::written;
use record::empty_record;
use test_examples::{Counts, number_of};

// All of example 15.
pub(crate) fn run(counts: &mut Counts) {
    let mut a = empty_record();
    let mut b = empty_record();
    counts.number(b"15 record of A ", number_of(edit::new(b"A", &mut a)), 0);
    counts.number(b"15 record of B ", number_of(edit::new(b"B", &mut b)), 0);
    counts.number(
        b"15 A a subgraph of B ",
        number_of(edit::make_subgraph_of(&mut a, &b)),
        0,
    );
    let mut out = io::buffer();
    let described = describe::describe_relationship(&a, &b, b"p", b"q", &mut out);
    written(
        counts,
        b"15 description ",
        described,
        &out,
        b"Name 1 is for p\nGraph 1 is a subgraph of graph 2\nName 2 is for q\nWith graph names:\n1\tA\n2\tA\n",
    );
}
