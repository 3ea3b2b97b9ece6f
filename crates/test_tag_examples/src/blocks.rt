// Blocks as such: one of all zeros, and one with a byte behind its end.
use crate::calls::Trial;
use test_examples::Counts;

// A block of all zeros is an empty list; with another byte at its end it is none.
pub(crate) fn both_blocks(counts: &mut Counts) {
    let mut trial = Trial::new(counts);
    trial.counted(b"19 tags of all zeros ", 0);
    trial.end_in(1);
    trial.refused(b"19 block with a byte behind its end ", 29);
}
