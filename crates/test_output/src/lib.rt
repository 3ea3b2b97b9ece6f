// What the programs share: writing to standard output, and to a buffer as far as there is room.
#![tactic(auto)]

// The descriptor of standard output.
const STDOUT: i32 = 1;

// Writes bytes.
pub fn print(s: &[u8]) {
    io::write_all(STDOUT, s);
}

// Writes a number in decimal.
pub fn print_number(n: usize) {
    io::print_decimal(STDOUT, n as u64);
}

// Puts a byte into a buffer, if there is room, and gives the place behind it.
pub fn put(out: &mut [u8], at: usize, x: u8) -> usize {
    if at < out.len() {
        out[at] = x;
        return at + 1;
    }
    at
}

// Puts a text into a buffer, as far as there is room.
pub fn put_text(out: &mut [u8], at: usize, s: &[u8]) -> usize {
    let mut p = at;
    for x in s {
        p = put(out, p, *x);
    }
    p
}
