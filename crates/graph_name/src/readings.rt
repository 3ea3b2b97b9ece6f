// Header lines and tags read into a record. A refusal leaves the empty record, but for 15, which writes nothing.
ghost use Rattle.std.specs.Prelude.{◌≡◌, option_copied};
ghost use Rattle.model.specs.Reading.{from_header_lines, from_tags};
ghost use Rattle.model.specs.Outcome.{read_into, read_tags_into, refusal_into};
ghost use Rattle.model.specs.Values.{flagged};

use results::refusal_out;

// Reads header lines. Line, start, length and offset are always written: the refusal's line, its quoted part, and the byte of the text at
// which that part begins, or the line or field where none is quoted; or all 0.
#[unsafe(no_mangle)]
pub extern "C" fn graph_name_from_header_lines(
    text: &[u8],
    buffer: &mut [u8],
    line: &mut u64,
    start: &mut u64,
    length: &mut u64,
    offset: &mut u64,
) -> u32
    ensures value { result ≡ (refusal_into (from_header_lines text.now) buffer.old).number }
    ensures buffer_after { buffer.new ≡ (read_into text.now buffer.old).buffer }
    ensures line_after { line.new ≡ (refusal_into (from_header_lines text.now) buffer.old).line }
    ensures start_after { start.new ≡ (refusal_into (from_header_lines text.now) buffer.old).start }
    ensures length_after { length.new ≡ (refusal_into (from_header_lines text.now) buffer.old).size }
    ensures offset_after { offset.new ≡ (refusal_into (from_header_lines text.now) buffer.old).offset }
{
    let read = parse::from_header_lines(text, buffer);
    refusal_out(read, line, start, length, offset)
}

// A tag's value, if its flag is not 0.
fn flagged(flag: u32, value: &[u8]) -> Option<&[u8]>
    ensures { option_copied result ≡ flagged flag value.now }
{
    (flag != 0).then_some(value)
}

// Reads the values of the three tags, each there if its flag is not 0. Line, start, length and offset are written likewise, places being
// counted in a tag's value.
#[unsafe(no_mangle)]
pub extern "C" fn graph_name_from_tags(
    has_name: u32,
    name: &[u8],
    has_subgraph: u32,
    subgraph: &[u8],
    has_translation: u32,
    translation: &[u8],
    buffer: &mut [u8],
    line: &mut u64,
    start: &mut u64,
    length: &mut u64,
    offset: &mut u64,
) -> u32
    ensures value { result ≡ (refusal_into (from_tags (flagged has_name name.now) (flagged has_subgraph subgraph.now) (flagged has_translation translation.now)) buffer.old).number }
    ensures buffer_after { buffer.new ≡ (read_tags_into (flagged has_name name.now) (flagged has_subgraph subgraph.now) (flagged has_translation translation.now) buffer.old).buffer }
    ensures line_after { line.new ≡ (refusal_into (from_tags (flagged has_name name.now) (flagged has_subgraph subgraph.now) (flagged has_translation translation.now)) buffer.old).line }
    ensures start_after { start.new ≡ (refusal_into (from_tags (flagged has_name name.now) (flagged has_subgraph subgraph.now) (flagged has_translation translation.now)) buffer.old).start }
    ensures length_after { length.new ≡ (refusal_into (from_tags (flagged has_name name.now) (flagged has_subgraph subgraph.now) (flagged has_translation translation.now)) buffer.old).size }
    ensures offset_after { offset.new ≡ (refusal_into (from_tags (flagged has_name name.now) (flagged has_subgraph subgraph.now) (flagged has_translation translation.now)) buffer.old).offset }
{
    let read = parse::from_tags(
        flagged(has_name, name),
        flagged(has_subgraph, subgraph),
        flagged(has_translation, translation),
        buffer,
    );
    refusal_out(read, line, start, length, offset)
}
