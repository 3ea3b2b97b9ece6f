// The path questions between the graphs of two records.
ghost use Rattle.std.specs.Prelude.{◌≡◌, length};
ghost use Rattle.model.specs.Outcome.{ask_subgraph, ask_full, output_after, answer_number, answer_value};

use results::{answer_out, number_of};

// Whether the first graph is a subgraph of the second; on a yes the path's bytes go to the front of the output.
#[unsafe(no_mangle)]
pub extern "C" fn graph_name_is_subgraph_of<'a>(
    buffer: &'a [u8],
    other: &'a [u8],
    out: &mut [u8],
    answer: &mut u64,
) -> u32
    ensures value { result ≡ answer_number (ask_subgraph buffer.now other.now (length out.old)) }
    ensures out_after { out.new ≡ output_after (ask_subgraph buffer.now other.now (length out.old)) out.old }
    ensures answer_after { answer.new ≡ answer_value answer.old (ask_subgraph buffer.now other.now (length out.old)) }
{
    number_of(answer_out(questions::is_subgraph_of(buffer, other, out), answer))
}

// Whether coordinates of the first graph translate to the second; on a yes the path's bytes go to the front of the output.
#[unsafe(no_mangle)]
pub extern "C" fn graph_name_translates_to<'a>(
    buffer: &'a [u8],
    other: &'a [u8],
    out: &mut [u8],
    answer: &mut u64,
) -> u32
    ensures value { result ≡ answer_number (ask_full buffer.now other.now (length out.old)) }
    ensures out_after { out.new ≡ output_after (ask_full buffer.now other.now (length out.old)) out.old }
    ensures answer_after { answer.new ≡ answer_value answer.old (ask_full buffer.now other.now (length out.old)) }
{
    number_of(answer_out(questions::translates_to(buffer, other, out), answer))
}
