// docs/FORMAT.md, example 16: what the record program finds in three header lines, and a refusal with its message.
ghost use Rattle.std.specs.Prelude.{◌≤◌};

use model::Fault;
use record::empty_record;
use test_examples::{Counts, number_of};
use test_output::{print, print_number};

// The text that a writer put to the front of the output, beside the one that is stated.
pub(crate) fn written(
    counts: &mut Counts,
    label: &[u8],
    size: Result<usize, Fault>,
    out: &[u8],
    stated: &[u8],
) {
    match size {
        Ok(size) => counts.shown(label, text::part(out, 0, size), stated),
        Err(fault) => counts.number(label, number_of(Err(fault)), 0),
    }
}

// The counts of the example's record.
fn record_counts(counts: &mut Counts, record: &[u8]) {
    match accessors::counts(record) {
        Ok(held) => {
            counts.number(b"16 names ", held.names, 3);
            counts.number(b"16 subgraph ", held.subgraph, 1);
            counts.number(b"16 translation ", held.translation, 1);
        }
        Err(fault) => counts.number(b"16 refused ", number_of(Err(fault)), 0),
    }
}

// The counts and the GAF lines of the example's record.
fn lines_read(counts: &mut Counts) {
    let mut record = empty_record();
    let text = b"H\tVN:Z:1.1\tNM:Z:b2\n@SG\tb2\tb1\nH\tTL:Z:b1,a\n";
    if let Err(refusal) = parse::from_header_lines(text, &mut record) {
        counts.number(b"16 refused ", number_of(Err(refusal.fault)), 0);
        return;
    }
    record_counts(counts, &record);
    let mut out = io::buffer();
    let size = export::to_gaf_header_lines(&record, &mut out);
    written(
        counts,
        b"16 lines ",
        size,
        &out,
        b"@RN\tb2\n@SG\tb2\tb1\n@TL\tb1\ta\n",
    );
}

// The refusal with number 6 in line 1, and its message.
fn refusal(counts: &mut Counts) {
    let mut record = empty_record();
    let text = b"@RN\t";
    let Err(refusal) = parse::from_header_lines(text, &mut record) else {
        print(b"16 not refused");
        counts.judge(false);
        return;
    };
    let number = number_of(Err(refusal.fault));
    counts.number(b"16 refused ", number, 6);
    counts.number(b"16 refused in line ", refusal.line, 1);
    let part = text::part(text, refusal.start, refusal.size);
    let mut out = io::buffer();
    let size = export::error_message(number, refusal.line, part, &mut out);
    written(
        counts,
        b"16 message ",
        size,
        &out,
        b"Invalid GAF name header line: @RN\t",
    );
}

// The record program on one line of a kind that is passed over, which is so many bytes long.
fn program_on(size: usize)
    requires { (4 ≤ size) × (size ≤ 65536) }
{
    print(b"16 on ");
    print_number(size);
    print(b" bytes:\n");
    let mut line = io::large_buffer();
    line[..4].copy_from_slice(b"@CO\t");
    line[4..size].fill(b'x');
    test_report::program(&line[..size]);
}

// All of example 16. What the program prints at its limit and past it is held to the file `stdout`.
pub(crate) fn run(counts: &mut Counts) {
    program_on(16384);
    program_on(16385);
    lines_read(counts);
    refusal(counts);
}
