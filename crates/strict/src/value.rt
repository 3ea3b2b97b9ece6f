// Values of the seven types, and typed fields.
ghost use Rattle.std.specs.Prelude.{◌≡◌, ◌||◌};
ghost use Rattle.std.specs.List.{list_all};
ghost use Rattle.model.specs.Strict.{digit, hex_letter, printable, matches, value_of, fine_field};

use crate::class::Class;
use crate::number::Number;

// Whether each byte of v is one of the space to ~.
fn is_printable(v: &[u8]) -> bool
    ensures { result ≡ list_all printable v.now }
{
    v.iter().all(|x| Class::Printable.holds(*x))
}

// Whether each byte of v is a digit or one of A to F.
fn is_hex(v: &[u8]) -> bool
    ensures { result ≡ list_all (λ x. digit x || hex_letter x) v.now }
{
    v.iter()
        .all(|x| Class::Digit.holds(*x) || Class::HexLetter.holds(*x))
}

// Whether v is a list of numbers: the letter of their width, then a comma before each.
#[tactic(auto, using(crate::proofs::Values::list_cases))]
fn is_list(v: &[u8]) -> bool
    ensures { result ≡ matches (value_of 66) v.now }
{
    match v {
        [width, b',', numbers @ ..] => {
            b"cCsSiIf".contains(width) && Number::accepts_list(numbers)
        }
        _ => false,
    }
}

// Whether v is a value of type t; a byte that is no type has none.
#[tactic(auto, using(crate::proofs::Values::values))]
pub fn fine_value(t: u8, v: &[u8]) -> bool
    ensures { result ≡ matches (value_of t) v.now }
{
    match t {
        b'A' => matches!(v, [x] if Class::Visible.holds(*x)),
        b'i' => Number::Integer.accepts(v),
        b'f' => Number::Float.accepts(v),
        b'Z' | b'J' => !v.is_empty() && is_printable(v),
        b'H' => !v.is_empty() && is_hex(v),
        b'B' => is_list(v),
        _ => false,
    }
}

// Whether f is a typed field: two letters, a colon, a type, a colon, a value of that type.
#[tactic(auto, using(std::proofs::lemmas::Bool::Decides::nat_tests), unfolding(model::specs::Strict::fine_field))]
pub fn fine_field(f: &[u8]) -> bool
    ensures { result ≡ fine_field f.now }
{
    match f {
        [x, y, b':', t, b':', v @ ..] => {
            Class::Letter.holds(*x) && Class::Letter.holds(*y) && fine_value(*t, v)
        }
        _ => false,
    }
}
