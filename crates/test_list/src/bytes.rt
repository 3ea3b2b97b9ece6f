// Bytes as the list writes them: two hexadecimal digits for one, printable ones between quotes, `t` for a tab and `n` for the end of a
// line, and `*N.` for the byte before it N times in all.
ghost use Rattle.std.specs.Prelude.{◌<◌, length};

use crate::lines::{cut, number};
use test_output::{put, put_text};

// Writes the byte before a place again, until it stands there so many times.
fn repeat(out: &mut [u8], at: usize, times: usize) -> usize {
    let Some(x) = at.checked_sub(1).and_then(|last| out.get(last).copied()) else {
        return at;
    };
    let mut end = at;
    for _ in 1..times {
        end = put(out, end, x);
    }
    end
}

// The value of a hexadecimal digit in lower case, which std would read in upper case too; 0 for other bytes.
fn digit(x: u8) -> u8
    ensures { result < 16 }
{
    match x {
        b'0'..=b'9' => x - b'0',
        b'a'..=b'f' => x - b'a' + 10,
        _ => 0,
    }
}

// Writes what stands at the front of s, and gives the place behind it and what is left of s.
fn put_next<'a>(out: &mut [u8], at: usize, s: &'a [u8]) -> (usize, &'a [u8])
    ensures { 0 < length s.now → length result.1.now < length s.now }
{
    match s {
        [b'"', tail @ ..] => {
            let (quoted, rest) = cut(tail, b'"');
            (put_text(out, at, quoted), rest)
        }
        [b'*', tail @ ..] => {
            let (times, rest) = cut(tail, b'.');
            (repeat(out, at, number(times) as usize), rest)
        }
        [b't', rest @ ..] => (put(out, at, b'\t'), rest),
        [b'n', rest @ ..] => (put(out, at, b'\n'), rest),
        [high, low, rest @ ..] => (put(out, at, 16 * digit(*high) + digit(*low)), rest),
        _ => (put(out, at, 0), &s[s.len()..]),
    }
}

// Writes the bytes that s stands for to the front of the output, and gives their number.
pub(crate) fn read_bytes(s: &[u8], out: &mut [u8]) -> usize {
    let mut rest = s;
    let mut at = 0;
    // Each turn takes as much of the text as it reads, from one byte to all.
    while !rest.is_empty() {
        (at, rest) = put_next(out, at, rest);
    }
    at
}
