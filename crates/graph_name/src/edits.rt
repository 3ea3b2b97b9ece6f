// Making and changing records. A refusal leaves the record as it was, but that `graph_name_new` leaves the empty record on 11.
ghost use Rattle.std.specs.Prelude.{◌≡◌};
ghost use Rattle.model.specs.Outcome.{add_subgraph, add_translation, add_relationships, make_subgraph_of, add_translation_to, new_record};

use results::number_of;

// The record of a graph with this name and no pairs.
#[unsafe(no_mangle)]
pub extern "C" fn graph_name_new(name: &[u8], buffer: &mut [u8]) -> u32
    ensures value { result ≡ (new_record name.now buffer.old).number }
    ensures buffer_after { buffer.new ≡ (new_record name.now buffer.old).buffer }
{
    number_of(edit::new(name, buffer))
}

// Adds a subgraph pair, unless either name is empty.
#[unsafe(no_mangle)]
pub extern "C" fn graph_name_add_subgraph(buffer: &mut [u8], from: &[u8], to: &[u8]) -> u32
    ensures value { result ≡ (add_subgraph from.now to.now buffer.old).number }
    ensures buffer_after { buffer.new ≡ (add_subgraph from.now to.now buffer.old).buffer }
{
    number_of(edit::add_subgraph(buffer, from, to))
}

// Adds a translation pair, unless either name is empty.
#[unsafe(no_mangle)]
pub extern "C" fn graph_name_add_translation(buffer: &mut [u8], from: &[u8], to: &[u8]) -> u32
    ensures value { result ≡ (add_translation from.now to.now buffer.old).number }
    ensures buffer_after { buffer.new ≡ (add_translation from.now to.now buffer.old).buffer }
{
    number_of(edit::add_translation(buffer, from, to))
}

// Makes the graph a subgraph of its parent, and takes over the parent's pairs; nothing if either has no name.
#[unsafe(no_mangle)]
pub extern "C" fn graph_name_make_subgraph_of(buffer: &mut [u8], parent: &[u8]) -> u32
    ensures value { result ≡ (make_subgraph_of buffer.old parent.now).number }
    ensures buffer_after { buffer.new ≡ (make_subgraph_of buffer.old parent.now).buffer }
{
    number_of(edit::make_subgraph_of(buffer, parent))
}

// Lets the graph's coordinates translate to its parent's, and takes over the parent's pairs; nothing if either has no name.
#[unsafe(no_mangle)]
pub extern "C" fn graph_name_add_translation_to(buffer: &mut [u8], parent: &[u8]) -> u32
    ensures value { result ≡ (add_translation_to buffer.old parent.now).number }
    ensures buffer_after { buffer.new ≡ (add_translation_to buffer.old parent.now).buffer }
{
    number_of(edit::add_translation_to(buffer, parent))
}

// Takes over the other record's pairs of both kinds, and no own name.
#[unsafe(no_mangle)]
pub extern "C" fn graph_name_add_relationships(buffer: &mut [u8], other: &[u8]) -> u32
    ensures value { result ≡ (add_relationships buffer.old other.now).number }
    ensures buffer_after { buffer.new ≡ (add_relationships buffer.old other.now).buffer }
{
    number_of(edit::add_relationships(buffer, other))
}
