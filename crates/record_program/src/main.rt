// The record program of docs/FORMAT.md: reads header lines from standard input, at most 16,384 bytes, and prints the counts of the record and
// its GAF lines, or the refusal with its message line.
#![tactic(auto)]

// The descriptor of standard input.
const STDIN: i32 = 0;

fn main() {
    let mut input = io::large_buffer();
    let n = io::read_full(STDIN, &mut input);
    test_report::program(&input[..n]);
}
