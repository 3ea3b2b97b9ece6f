// Parts of a line of the list: words between spaces, and numbers in decimal.
ghost use Rattle.std.specs.Prelude.{◌≡◌, ◌==◌};
ghost use Rattle.std.specs.List.{before_first, after_first};

// What an output number holds before a call. The list has `-` for it.
pub const UNWRITTEN: u64 = 6510615555426900570;

// What stands before the first x of s, and what behind it: all of s and nothing where there is no x.
pub fn cut(s: &[u8], x: u8) -> (&[u8], &[u8])
    ensures before { result.0.now ≡ before_first (λ y. y == x) s.now }
    ensures behind { result.1.now ≡ after_first (λ y. y == x) s.now }
{
    match s.iter().position(|y| *y == x) {
        Some(place) => (&s[..place], &s[place + 1..]),
        None => (s, &s[s.len()..]),
    }
}

// A number with one more decimal digit; other bytes, and digits past 64 bits, change nothing.
fn with_digit(n: u64, x: u8) -> u64 {
    match x {
        b'0'..=b'9' => n
            .checked_mul(10)
            .and_then(|m| m.checked_add(u64::from(x - b'0')))
            .unwrap_or(n),
        _ => n,
    }
}

// The number that a word is in decimal.
pub(crate) fn number(word: &[u8]) -> u64 {
    match word {
        b"-" => UNWRITTEN,
        _ => word.iter().fold(0, |n, x| with_digit(n, *x)),
    }
}

// The numbers of a line: the result of a call, those that come out of it, and those that go in.
#[derive(Clone, Copy)]
pub struct Numbers<'a> {
    pub words: &'a [u8],
}

impl Numbers<'_> {
    // The number at a place, counted from 0; 0 if it is not there.
    pub fn at(self, place: usize) -> u64 {
        self.words
            .split(|x| *x == b' ')
            .nth(place)
            .map_or(0, number)
    }

    // The number at a place, as one of 32 bits.
    pub fn narrow(self, place: usize) -> u32 {
        (self.at(place) & 0xffff_ffff) as u32
    }

    // Whether the first numbers are these.
    pub fn are(self, stated: &[u64]) -> bool {
        stated
            .iter()
            .enumerate()
            .all(|(place, n)| self.at(place) == *n)
    }
}
