// The five classes of bytes, by one table: a rule of the project asks for it, and for one computed test of all its entries.
ghost use Rattle.std.specs.Prelude.{◌≡◌};
ghost use Rattle.strict.specs.Class.{Classes, is_of};

// Each byte's classes: 1 a digit, 2 A to F, 4 a letter, 8 from ! to ~, 16 from the space to ~.
const CLASSES: [u8; 256] = [
    0, 0, 0, 0, 0, 0, 0, 0, 0, 0, 0, 0, 0, 0, 0, 0, 0, 0, 0, 0, 0, 0, 0, 0, 0, 0, 0, 0, 0, 0, 0, 0,
    16, 24, 24, 24, 24, 24, 24, 24, 24, 24, 24, 24, 24, 24, 24, 24, 25, 25, 25, 25, 25, 25, 25, 25,
    25, 25, 24, 24, 24, 24, 24, 24, 24, 30, 30, 30, 30, 30, 30, 28, 28, 28, 28, 28, 28, 28, 28, 28,
    28, 28, 28, 28, 28, 28, 28, 28, 28, 28, 28, 24, 24, 24, 24, 24, 24, 28, 28, 28, 28, 28, 28, 28,
    28, 28, 28, 28, 28, 28, 28, 28, 28, 28, 28, 28, 28, 28, 28, 28, 28, 28, 28, 24, 24, 24, 24, 0,
    0, 0, 0, 0, 0, 0, 0, 0, 0, 0, 0, 0, 0, 0, 0, 0, 0, 0, 0, 0, 0, 0, 0, 0, 0, 0, 0, 0, 0, 0, 0, 0,
    0, 0, 0, 0, 0, 0, 0, 0, 0, 0, 0, 0, 0, 0, 0, 0, 0, 0, 0, 0, 0, 0, 0, 0, 0, 0, 0, 0, 0, 0, 0, 0,
    0, 0, 0, 0, 0, 0, 0, 0, 0, 0, 0, 0, 0, 0, 0, 0, 0, 0, 0, 0, 0, 0, 0, 0, 0, 0, 0, 0, 0, 0, 0, 0,
    0, 0, 0, 0, 0, 0, 0, 0, 0, 0, 0, 0, 0, 0, 0, 0, 0, 0, 0, 0, 0, 0, 0, 0, 0, 0, 0, 0, 0, 0, 0, 0,
];

// A class of bytes; a byte may be of several.
#[derive(Clone, Copy, Debug, PartialEq, Eq)]
pub(crate) enum Class {
    Digit,
    HexLetter,
    Letter,
    Visible,
    Printable,
}

// The sum of the classes of a byte.
fn class_of(x: u8) -> u8
    ensures { Classes x result }
{
    CLASSES[x as usize]
}

impl Class {
    // Whether a byte is of this class.
    pub(crate) fn holds(self, x: u8) -> bool
        ensures { result ≡ is_of self x }
    {
        let classes = class_of(x);
        match self {
            Class::Digit => classes % 2 == 1,
            Class::HexLetter => classes / 2 % 2 == 1,
            Class::Letter => classes / 4 % 2 == 1,
            Class::Visible => classes / 8 % 2 == 1,
            Class::Printable => classes / 16 % 2 == 1,
        }
    }
}
