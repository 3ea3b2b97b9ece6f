// A whole line read as one field, and what a field of a text is.
ghost use Rattle.std.specs.Prelude.{◌≡◌, ◌<◌, ◌+◌, ◌^◌, false, nat_eq, codes, length};
ghost use Rattle.std.specs.List.{starts_with};
ghost use Rattle.model.specs.Reading.{is_gaf_head};
ghost use Rattle.fields.specs.Rest.{IsLine};

use crate::field::{Content, gaf_line};
use model::Fault;

// A field: what it says; the byte of the whole text at which it begins (an `@` line counts as one field, which begins with its second);
// and the part of the text in which its places are counted and which a refusal quotes, as C has it: where it starts, and its size.
#[derive(Clone, Copy, Debug, PartialEq, Eq)]
pub struct Field {
    pub content: Result<Content, Fault>,
    pub offset: usize,
    pub start: usize,
    pub size: usize,
}

// Whether a line's first field has three bytes and begins `@`.
fn is_gaf_head(head: &[u8]) -> bool
    ensures { result ≡ is_gaf_head head.now }
{
    matches!(head, [b'@', _, _])
}

// What a line says that begins at `at` and is no `H` line, as one field.
pub(crate) fn line_field(line: &[u8], at: usize) -> Field
    requires other { starts_with nat_eq line.now (codes "H\t") ≡ false }
    requires end { at + length line.now < 2 ^ 64 }
    ensures { IsLine line.now at result }
{
    let head_size = text::find_byte(line, 0, b'\t');
    if line.len() <= head_size {
        return Field {
            content: Err(Fault::ShortLine),
            offset: at,
            start: at,
            size: 0,
        };
    }
    if is_gaf_head(&line[..head_size]) {
        return Field {
            content: gaf_line(line),
            offset: at + head_size + 1,
            start: at,
            size: line.len(),
        };
    }
    Field {
        content: Err(Fault::UnknownFirstField),
        offset: at,
        start: at,
        size: head_size,
    }
}
