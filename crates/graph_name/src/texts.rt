// A record written as text, a refusal as the Rust's error text, and how two graphs are related.
ghost use Rattle.std.specs.Prelude.{◌≡◌, length};
ghost use Rattle.model.specs.Opening.{number_of, value_or};
ghost use Rattle.model.specs.Written.{gfa_written, gaf_written, message_written, relationship_written, output_with, tags_written, output_with_tag};
ghost use Rattle.model.specs.Values.{is_present, length_of};

use results::{count_out, number_of, tags_out};

// The GFA header lines.
#[unsafe(no_mangle)]
pub extern "C" fn graph_name_to_gfa_header_lines(
    buffer: &[u8],
    out: &mut [u8],
    written: &mut u64,
) -> u32
    ensures value { result ≡ number_of (gfa_written buffer.now (length out.old)) }
    ensures out_after { out.new ≡ output_with (gfa_written buffer.now (length out.old)) out.old }
    ensures written_after { written.new ≡ value_or written.old length (gfa_written buffer.now (length out.old)) }
{
    number_of(count_out(export::to_gfa_header_lines(buffer, out), written))
}

// The GAF header lines.
#[unsafe(no_mangle)]
pub extern "C" fn graph_name_to_gaf_header_lines(
    buffer: &[u8],
    out: &mut [u8],
    written: &mut u64,
) -> u32
    ensures value { result ≡ number_of (gaf_written buffer.now (length out.old)) }
    ensures out_after { out.new ≡ output_with (gaf_written buffer.now (length out.old)) out.old }
    ensures written_after { written.new ≡ value_or written.old length (gaf_written buffer.now (length out.old)) }
{
    number_of(count_out(export::to_gaf_header_lines(buffer, out), written))
}

// The error text of a refusal: its number, its line and the part that it quotes.
#[unsafe(no_mangle)]
pub extern "C" fn graph_name_error_message(
    number: u32,
    line: u64,
    part: &[u8],
    out: &mut [u8],
    written: &mut u64,
) -> u32
    ensures value { result ≡ number_of (message_written number line part.now (length out.old)) }
    ensures out_after { out.new ≡ output_with (message_written number line part.now (length out.old)) out.old }
    ensures written_after { written.new ≡ value_or written.old length (message_written number line part.now (length out.old)) }
{
    let given = export::error_message(number as usize, line as usize, part, out);
    number_of(count_out(given, written))
}

// How the graphs of two records are related, each shown with its desc.
#[unsafe(no_mangle)]
pub extern "C" fn graph_name_describe_relationship<'a>(
    buffer: &'a [u8],
    other: &'a [u8],
    self_desc: &[u8],
    other_desc: &[u8],
    out: &mut [u8],
    written: &mut u64,
) -> u32
    ensures value { result ≡ number_of (relationship_written buffer.now other.now self_desc.now other_desc.now (length out.old)) }
    ensures out_after { out.new ≡ output_with (relationship_written buffer.now other.now self_desc.now other_desc.now (length out.old)) out.old }
    ensures written_after { written.new ≡ value_or written.old length (relationship_written buffer.now other.now self_desc.now other_desc.now (length out.old)) }
{
    let given = describe::describe_relationship(buffer, other, self_desc, other_desc, out);
    number_of(count_out(given, written))
}

// The values of the three tags, each with an output of its own: whether there is one, and how many bytes were written.
#[unsafe(no_mangle)]
pub extern "C" fn graph_name_set_tags(
    buffer: &[u8],
    name: &mut [u8],
    subgraph: &mut [u8],
    translation: &mut [u8],
    has_name: &mut u64,
    name_length: &mut u64,
    has_subgraph: &mut u64,
    subgraph_length: &mut u64,
    has_translation: &mut u64,
    translation_length: &mut u64,
) -> u32
    ensures value { result ≡ number_of (tags_written buffer.now (length name.old) (length subgraph.old) (length translation.old)) }
    ensures name_after { name.new ≡ output_with_tag (λ v. v.name) (tags_written buffer.now (length name.old) (length subgraph.old) (length translation.old)) name.old }
    ensures subgraph_after { subgraph.new ≡ output_with_tag (λ v. v.subgraph) (tags_written buffer.now (length name.old) (length subgraph.old) (length translation.old)) subgraph.old }
    ensures translation_after { translation.new ≡ output_with_tag (λ v. v.translation) (tags_written buffer.now (length name.old) (length subgraph.old) (length translation.old)) translation.old }
    ensures has_name_after { has_name.new ≡ value_or has_name.old (λ v. is_present v.name) (tags_written buffer.now (length name.old) (length subgraph.old) (length translation.old)) }
    ensures name_length_after { name_length.new ≡ value_or name_length.old (λ v. length_of v.name) (tags_written buffer.now (length name.old) (length subgraph.old) (length translation.old)) }
    ensures has_subgraph_after { has_subgraph.new ≡ value_or has_subgraph.old (λ v. is_present v.subgraph) (tags_written buffer.now (length name.old) (length subgraph.old) (length translation.old)) }
    ensures subgraph_length_after { subgraph_length.new ≡ value_or subgraph_length.old (λ v. length_of v.subgraph) (tags_written buffer.now (length name.old) (length subgraph.old) (length translation.old)) }
    ensures has_translation_after { has_translation.new ≡ value_or has_translation.old (λ v. is_present v.translation) (tags_written buffer.now (length name.old) (length subgraph.old) (length translation.old)) }
    ensures translation_length_after { translation_length.new ≡ value_or translation_length.old (λ v. length_of v.translation) (tags_written buffer.now (length name.old) (length subgraph.old) (length translation.old)) }
{
    let given = export::set_tags(buffer, name, subgraph, translation);
    number_of(tags_out(
        given,
        has_name,
        name_length,
        has_subgraph,
        subgraph_length,
        has_translation,
        translation_length,
    ))
}
