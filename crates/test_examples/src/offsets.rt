// docs/FORMAT.md, example 18: where a refusal is, on a line of four hundred fields.
use crate::output::Counts;
use record::empty_record;
use test_output::{put, put_text};

// Writes a text so many times.
fn put_times(out: &mut [u8], at: usize, s: &[u8], times: usize) -> usize {
    let mut p = at;
    for _ in 0..times {
        p = put_text(out, p, s);
    }
    p
}

// Writes an `H` line of 399 fields, and the tab before one more.
fn put_fields(out: &mut [u8], at: usize) -> usize {
    let first = put(out, at, b'H');
    let last = put_times(out, first, b"\tXX:i:1", 399);
    put(out, last, b'\t')
}

// Writes a name field that is a byte too long.
fn put_long_name(out: &mut [u8], at: usize) -> usize {
    let name = put_text(out, at, b"NM:Z:");
    put_times(out, name, b"n", 257)
}

// The number, the line and the offset of the refusal of a text, beside those that are stated.
fn refused_at(counts: &mut Counts, text: &[u8], stated: usize, line: usize, offset: usize) {
    let mut record = empty_record();
    match parse::from_header_lines(text, &mut record) {
        Ok(()) => counts.number(b"18 refused ", 0, stated),
        Err(refusal) => {
            counts.number(b"18 refused ", u32::from(refusal.fault) as usize, stated);
            counts.number(b"18 in line ", refusal.line, line);
            counts.number(b"18 at byte ", refusal.offset, offset);
        }
    }
}

// The line with a bad field as its last, and with a long name as its last, behind other lines.
fn both_faults(counts: &mut Counts, before: &[u8], line: usize, offset: usize) {
    let mut out = io::large_buffer();
    let first = put_text(&mut out, 0, before);
    let p = put_fields(&mut out, first);
    let bad = put_text(&mut out, p, b"XX:i");
    refused_at(counts, text::part(&out, 0, bad), 3, line, offset);
    let long = put_long_name(&mut out, p);
    refused_at(counts, text::part(&out, 0, long), 11, line, offset);
}

// All of example 18.
pub fn run_offsets(counts: &mut Counts) {
    both_faults(counts, b"", 1, 2795);
    both_faults(counts, b"@CO\tx\n", 2, 2801);
}
