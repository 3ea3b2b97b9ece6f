// A record as header lines, in either format.
ghost use Rattle.std.specs.Prelude.{◌≡◌, length};
ghost use Rattle.model.specs.Writing.{name_line};
ghost use Rattle.model.specs.Written.{gfa_written, gaf_written, size_written, output_with};
ghost use Rattle.text.specs.Appending.{Appends};
ghost use Rattle.export.specs.Texts.{header_lines, lines_written};

use crate::output::write_text;
use crate::pairs::{Around, append_pairs};
use model::{Fault, Kind};
use record::Record;
use text::append;

// What stands around names in the lines of a format: before the own name, before a pair of each kind, and between two names.
#[derive(Clone, Copy)]
struct Format<'a> {
    name: &'a [u8],
    subgraph: &'a [u8],
    translation: &'a [u8],
    between: u8,
}

const GFA: Format = Format {
    name: b"H\tNM:Z:",
    subgraph: b"H\tSG:Z:",
    translation: b"H\tTL:Z:",
    between: b',',
};

const GAF: Format = Format {
    name: b"@RN\t",
    subgraph: b"@SG\t",
    translation: b"@TL\t",
    between: b'\t',
};

// Appends the line of the own name, if there is one, to the front of the output.
fn append_name(out: &mut [u8], graph: &Record, before: &[u8]) -> usize
    ensures { Appends out.old 0 (name_line before.now graph.now.name) result out.new }
{
    match graph.own_name() {
        Some(name) => {
            let p = append(out, 0, before);
            let q = append(out, p, name);
            append(out, q, b"\n")
        }
        None => 0,
    }
}

// Appends all lines of a format to the front of the output.
fn append_lines(out: &mut [u8], graph: &Record, format: Format) -> usize
    ensures { Appends out.old 0 (header_lines format.entry graph.now) result out.new }
{
    let subgraph = Around {
        before: format.subgraph,
        between: format.between,
        after: b"\n",
    };
    let translation = Around {
        before: format.translation,
        ..subgraph
    };
    let p = append_name(out, graph, format.name);
    let q = append_pairs(out, p, graph.pairs(Kind::Subgraph), subgraph);
    append_pairs(out, q, graph.pairs(Kind::Translation), translation)
}

// Writes a record as the header lines of a format.
#[tactic(auto, unfolding(crate::specs::Texts::lines_written, model::specs::Questions::asked))]
fn write_lines(b: &[u8], out: &mut [u8], format: Format) -> Result<usize, Fault>
    ensures size { result ≡ size_written (lines_written format.entry b.now (length out.old)) }
    ensures output { out.new ≡ output_with (lines_written format.entry b.now (length out.old)) out.old }
{
    let graph = Record::open(b)?;
    write_text(out, |out| append_lines(out, &graph, format))
}

// Both formats have the Rust's names, and a line each.

// Writes a record as GFA header lines.
#[tactic(auto, unfolding(model::specs::Written::gfa_written, model::specs::Writing::to_gfa_header_lines, crate::specs::Texts::lines_written))]
pub fn to_gfa_header_lines(b: &[u8], out: &mut [u8]) -> Result<usize, Fault>
    ensures size { result ≡ size_written (gfa_written b.now (length out.old)) }
    ensures output { out.new ≡ output_with (gfa_written b.now (length out.old)) out.old }
{
    write_lines(b, out, GFA)
}

// Writes a record as GAF header lines.
#[tactic(auto, unfolding(model::specs::Written::gaf_written, model::specs::Writing::to_gaf_header_lines, crate::specs::Texts::lines_written))]
pub fn to_gaf_header_lines(b: &[u8], out: &mut [u8]) -> Result<usize, Fault>
    ensures size { result ≡ size_written (gaf_written b.now (length out.old)) }
    ensures output { out.new ≡ output_with (gaf_written b.now (length out.old)) out.old }
{
    write_lines(b, out, GAF)
}
