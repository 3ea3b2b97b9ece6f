// A record as the values of three tags: its name, and the relations of each kind.
ghost use Rattle.std.specs.Prelude.{◌≡◌, true, ◌<◌, length};
ghost use Rattle.model.specs.Questions.{pairs_of, mapped};
ghost use Rattle.model.specs.Writing.{relations_tag};
ghost use Rattle.model.specs.Written.{fits, tags_of, tags_written, tag_sizes, put_value, output_with_tag};
ghost use Rattle.export.specs.Texts.{all_fit};

use crate::pairs::append_relations;
use model::{Fault, Kind, TagSizes};
use record::Record;
use text::append;

// Whether the relations of a kind fit an output of so many bytes.
fn relations_fit(graph: &Record, kind: Kind, room: usize) -> bool
    requires { room < usize.MAX }
    ensures { result ≡ fits (relations_tag (pairs_of kind graph.now)) room }
{
    append_relations(&mut [], graph, kind) <= room
}

// Whether each value fits an output of so many bytes.
fn all_fit(graph: &Record, name: usize, subgraph: usize, translation: usize) -> bool
    requires { (subgraph < usize.MAX) × (translation < usize.MAX) }
    ensures { result ≡ all_fit (tags_of graph.now) name subgraph translation }
{
    graph.own_name().is_none_or(|n| n.len() <= name)
        && relations_fit(graph, Kind::Subgraph, subgraph)
        && relations_fit(graph, Kind::Translation, translation)
}

// Writes the own name, if there is one.
fn write_name(out: &mut [u8], graph: &Record) -> Option<usize>
    requires { fits graph.now.name (length out.old) ≡ true }
    ensures size { result ≡ mapped length graph.now.name }
    ensures output { out.new ≡ put_value graph.now.name out.old }
{
    let name = graph.own_name()?;
    Some(append(out, 0, name))
}

// Writes the relations of a kind, if there are any.
#[tactic(auto, using(crate::proofs::Values::relations))]
fn write_relations(out: &mut [u8], graph: &Record, kind: Kind) -> Option<usize>
    requires { fits (relations_tag (pairs_of kind graph.now)) (length out.old) ≡ true }
    ensures size { result ≡ mapped length (relations_tag (pairs_of kind graph.now)) }
    ensures output { out.new ≡ put_value (relations_tag (pairs_of kind graph.now)) out.old }
{
    if graph.pair_count(kind) == 0 {
        return None;
    }
    Some(append_relations(out, graph, kind))
}

// Writes the values of the three tags, each to the front of its own output, and none unless all fit.
#[tactic(auto, unfolding(model::specs::Written::tags_written, model::specs::Questions::asked))]
pub fn set_tags(
    b: &[u8],
    name: &mut [u8],
    subgraph: &mut [u8],
    translation: &mut [u8],
) -> Result<TagSizes, Fault>
    ensures sizes { result ≡ tag_sizes (tags_written b.now (length name.old) (length subgraph.old) (length translation.old)) }
    ensures name_output { name.new ≡ output_with_tag (λ v. v.name) (tags_written b.now (length name.old) (length subgraph.old) (length translation.old)) name.old }
    ensures subgraph_output { subgraph.new ≡ output_with_tag (λ v. v.subgraph) (tags_written b.now (length name.old) (length subgraph.old) (length translation.old)) subgraph.old }
    ensures translation_output { translation.new ≡ output_with_tag (λ v. v.translation) (tags_written b.now (length name.old) (length subgraph.old) (length translation.old)) translation.old }
{
    let graph = Record::open(b)?;
    if !all_fit(&graph, name.len(), subgraph.len(), translation.len()) {
        return Err(Fault::OutputShort);
    }
    Ok(TagSizes {
        name: write_name(name, &graph),
        subgraph: write_relations(subgraph, &graph, Kind::Subgraph),
        translation: write_relations(translation, &graph, Kind::Translation),
    })
}
