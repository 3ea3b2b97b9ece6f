// The record program of docs/FORMAT.md: what comes of a text of header lines, printed. The counts of the record and its GAF lines, or the refusal
// with its message line.
#![tactic(auto)]

use model::Fault;
use parse::Refusal;
use test_output::{print, print_number};

// The program reads this many bytes at most.
const INPUT_LIMIT: usize = 16384;

// A word, a number and the end of the line.
fn print_count(word: &[u8], n: usize) {
    print(word);
    print_number(n);
    print(b"\n");
}

// What was written to the front of the output.
fn print_written(written: Result<usize, Fault>, out: &[u8]) {
    if let Ok(size) = written {
        print(text::part(out, 0, size));
    }
}

// The counts of a record, and its GAF lines.
fn print_record(b: &[u8]) {
    if let Ok(counts) = accessors::counts(b) {
        print_count(b"names ", counts.names);
        print_count(b"subgraph ", counts.subgraph);
        print_count(b"translation ", counts.translation);
    }
    let mut out = io::large_buffer();
    let written = export::to_gaf_header_lines(b, &mut out);
    print_written(written, &out);
}

// The number and the line of a refusal of a text, and its message on a line of its own.
fn print_refusal(text: &[u8], refusal: Refusal) {
    let number = u32::from(refusal.fault) as usize;
    let part = text::part(text, refusal.start, refusal.size);
    print(b"refused ");
    print_number(number);
    print_count(b" line ", refusal.line);
    let mut out = io::large_buffer();
    let written = export::error_message(number, refusal.line, part, &mut out);
    print_written(written, &out);
    print(b"\n");
}

// Reads a text into a record, and prints what comes of it.
pub fn run(text: &[u8]) {
    let mut record = record::empty_record();
    match parse::from_header_lines(text, &mut record) {
        Ok(()) => print_record(&record),
        Err(refusal) => print_refusal(text, refusal),
    }
}

// The record program on an input of any length.
pub fn program(input: &[u8]) {
    if INPUT_LIMIT < input.len() {
        print(b"input over 16384 bytes\n");
        return;
    }
    run(input);
}
