// The Rust's error texts for the numbers 1 to 10: the line for the first two, the words of the number, and from 2 on the quoted part.
// They are appended and not formatted by Display, since every byte is proved.
ghost use Rattle.std.specs.Prelude.{◌≡◌, ◌++◌, length};
ghost use Rattle.model.specs.Text.{text};
ghost use Rattle.model.specs.Numbers.{decimal};
ghost use Rattle.model.specs.Message.{error_message};
ghost use Rattle.model.specs.Written.{message_written, size_written, output_with};
ghost use Rattle.text.specs.Appending.{Appends};

use crate::output::write_text;
use model::Fault;
use text::{append, append_decimal};

// Appends words and what they quote to the front of the output.
fn append_quoted(out: &mut [u8], words: &[u8], part: &[u8]) -> usize
    ensures { Appends out.old 0 (words.now ++ part.now) result out.new }
{
    let p = append(out, 0, words);
    append(out, p, part)
}

// Appends the number of a line and words to the front of the output.
fn append_about_line(out: &mut [u8], line: usize, words: &[u8]) -> usize
    ensures { Appends out.old 0 (text "Error parsing header line " ++ decimal line ++ words.now) result out.new }
{
    let p = append(out, 0, b"Error parsing header line ");
    let q = append_decimal(out, p, line);
    append(out, q, words)
}

// Appends a refusal's text to the front of the output; no other number has one. By number, since C may ask for any.
fn append_message(out: &mut [u8], number: usize, line: usize, part: &[u8]) -> usize
    ensures { Appends out.old 0 (error_message number line part.now) result out.new }
{
    match number {
        1 => append_about_line(out, line, b": not enough fields"),
        2 => {
            let p = append_about_line(out, line, b": unknown first field ");
            append(out, p, part)
        }
        3 => append_quoted(out, b"Invalid GFA typed field: ", part),
        4 => append_quoted(out, b"Invalid subgraph field: ", part),
        5 => append_quoted(out, b"Invalid translation field: ", part),
        6 => append_quoted(out, b"Invalid GAF name header line: ", part),
        7 => append_quoted(out, b"Invalid GAF subgraph header line: ", part),
        8 => append_quoted(out, b"Invalid GAF translation header line: ", part),
        9 => append_quoted(out, b"Invalid subgraph relationship: ", part),
        10 => append_quoted(out, b"Invalid translation relationship: ", part),
        _ => 0,
    }
}

// Writes a refusal's text, as the Rust words it: the number, the line and the quoted part are those that a reading gave.
pub fn error_message(
    number: usize,
    line: usize,
    part: &[u8],
    out: &mut [u8],
) -> Result<usize, Fault>
    ensures size { result ≡ size_written (message_written number line part.now (length out.old)) }
    ensures output { out.new ≡ output_with (message_written number line part.now (length out.old)) out.old }
{
    write_text(out, |out| append_message(out, number, line, part))
}
