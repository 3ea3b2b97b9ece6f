// Numbers as the specification writes them, and lists of them, read byte by byte in one pass.
ghost use Rattle.std.specs.Prelude.{◌≡◌};
ghost use Rattle.strict.specs.Number.{digit_after, next, next_listed, ends, run, run_list};

use crate::class::Class;

// What has been read of a number: nothing yet, its sign, digits before the point, the point, digits after it; of an integer, as it stands
// behind an `e` too: nothing yet, its sign, digits.
#[derive(Clone, Copy)]
pub(crate) enum Number {
    Float,
    Unsigned,
    Whole,
    Point,
    Fraction,
    Integer,
    UnsignedInteger,
    Digits,
}

impl Number {
    // The state after a digit.
    fn after_digit(self) -> Number
        ensures { result ≡ digit_after self }
    {
        match self {
            Number::Float | Number::Unsigned | Number::Whole => Number::Whole,
            Number::Point | Number::Fraction => Number::Fraction,
            Number::Integer | Number::UnsignedInteger | Number::Digits => Number::Digits,
        }
    }

    // The state after one more byte, if that may stand here.
    fn after(self, x: u8) -> Option<Number>
        ensures { result ≡ next x self }
    {
        if Class::Digit.holds(x) {
            return Some(self.after_digit());
        }
        match (self, x) {
            (Number::Float, b'-' | b'+') => Some(Number::Unsigned),
            (Number::Float | Number::Unsigned | Number::Whole, b'.') => Some(Number::Point),
            (Number::Whole | Number::Fraction, b'e' | b'E') => Some(Number::Integer),
            (Number::Integer, b'-' | b'+') => Some(Number::UnsignedInteger),
            _ => None,
        }
    }

    // Whether a number may end here.
    fn may_end(self) -> bool
        ensures { result ≡ ends self }
    {
        matches!(self, Number::Whole | Number::Fraction | Number::Digits)
    }

    // The state after one more byte of a list: a comma ends a number, and the next one begins.
    fn after_in_list(self, x: u8) -> Option<Number>
        ensures { result ≡ next_listed x self }
    {
        if x == b',' {
            return self.may_end().then_some(Number::Float);
        }
        self.after(x)
    }

    // Whether v, read on from here, is a number.
    pub(crate) fn accepts(self, v: &[u8]) -> bool
        ensures { result ≡ run self v.now }
    {
        v.iter()
            .try_fold(self, |state, x| state.after(*x))
            .is_some_and(|state| state.may_end())
    }

    // Whether v is one number or more, with commas between them.
    pub(crate) fn accepts_list(v: &[u8]) -> bool
        ensures { result ≡ run_list v.now }
    {
        v.iter()
            .try_fold(Number::Float, |state, x| state.after_in_list(*x))
            .is_some_and(|state| state.may_end())
    }
}
