// Header lines by themselves: the GFA 1 specification's own example, and the lines of docs/FORMAT.md, example 16, read strictly and leniently.
use crate::output::{Counts, print_shown};
use record::empty_record;
use test_output::{print, print_number};

// A line that is stated to be fine, read strictly.
fn strictly(counts: &mut Counts, label: &[u8], line: &[u8]) {
    print(label);
    print_shown(line);
    let checked = strict::check_strict(line);
    match checked {
        Ok(()) => print(b" is fine"),
        Err(n) => {
            print(b" is faulty at field ");
            print_number(n);
        }
    }
    counts.judge(checked.is_ok());
}

// A line that is stated to be taken and to add nothing, read leniently.
fn leniently(counts: &mut Counts, label: &[u8], line: &[u8]) {
    print(label);
    print_shown(line);
    let mut record = empty_record();
    match parse::from_header_lines(line, &mut record) {
        Ok(()) => {
            print(b" is read");
            counts.judge(record == empty_record());
        }
        Err(refusal) => {
            print(b" is refused with ");
            print_number(u32::from(refusal.fault) as usize);
            counts.judge(false);
        }
    }
}

// The specification's example both ways, and the `H` lines of example 16 strictly.
pub fn run_lines(counts: &mut Counts) {
    strictly(counts, b"specification, strictly: ", b"H\tVN:Z:1.0");
    leniently(counts, b"specification, leniently: ", b"H\tVN:Z:1.0");
    strictly(counts, b"16 strictly: ", b"H\tVN:Z:1.1\tNM:Z:b2");
    strictly(counts, b"16 strictly: ", b"H\tTL:Z:b1,a");
}
