// What a record holds, one by one.
ghost use Rattle.std.specs.Prelude.{◌≡◌};
ghost use Rattle.model.specs.declared.Kind.TheVariants.{Subgraph, Translation};
ghost use Rattle.model.specs.Questions.{counts_in, name_in, name_at_in, pair_at_in, is_same_in};
ghost use Rattle.model.specs.Opening.{number_of, value_or};
ghost use Rattle.model.specs.Values.{one_if, is_present, part_start, part_size, from_start_of, from_size_of, to_start_of, to_size_of};

use model::Kind;
use results::{answer_out, counts_out, number_of, pair_out, part_out};

// How many distinct names and how many pairs of each kind.
#[unsafe(no_mangle)]
pub extern "C" fn graph_name_counts(
    buffer: &[u8],
    names: &mut u64,
    subgraph: &mut u64,
    translation: &mut u64,
) -> u32
    ensures value { result ≡ number_of (counts_in buffer.now) }
    ensures names_after { names.new ≡ value_or names.old (λ c. c.names) (counts_in buffer.now) }
    ensures subgraph_after { subgraph.new ≡ value_or subgraph.old (λ c. c.subgraph) (counts_in buffer.now) }
    ensures translation_after { translation.new ≡ value_or translation.old (λ c. c.translation) (counts_in buffer.now) }
{
    number_of(counts_out(accessors::counts(buffer), names, subgraph, translation))
}

// The own name: whether there is one, and where it stands in the record.
#[unsafe(no_mangle)]
pub extern "C" fn graph_name_name(
    buffer: &[u8],
    present: &mut u64,
    start: &mut u64,
    length: &mut u64,
) -> u32
    ensures value { result ≡ number_of (name_in buffer.now) }
    ensures present_after { present.new ≡ value_or present.old is_present (name_in buffer.now) }
    ensures start_after { start.new ≡ value_or start.old part_start (name_in buffer.now) }
    ensures length_after { length.new ≡ value_or length.old part_size (name_in buffer.now) }
{
    number_of(part_out(accessors::name(buffer), present, start, length))
}

// The name at a place, in ascending order from 0, likewise.
#[unsafe(no_mangle)]
pub extern "C" fn graph_name_name_at(
    buffer: &[u8],
    place: u64,
    present: &mut u64,
    start: &mut u64,
    length: &mut u64,
) -> u32
    ensures value { result ≡ number_of (name_at_in buffer.now place) }
    ensures present_after { present.new ≡ value_or present.old is_present (name_at_in buffer.now place) }
    ensures start_after { start.new ≡ value_or start.old part_start (name_at_in buffer.now place) }
    ensures length_after { length.new ≡ value_or length.old part_size (name_at_in buffer.now place) }
{
    let part = accessors::name_place(buffer, place as usize);
    number_of(part_out(part, present, start, length))
}

// The subgraph pair at a place, in ascending order from 0: whether there is one, and where its two names stand in the record.
#[unsafe(no_mangle)]
pub extern "C" fn graph_name_subgraph_at(
    buffer: &[u8],
    place: u64,
    present: &mut u64,
    from_start: &mut u64,
    from_length: &mut u64,
    to_start: &mut u64,
    to_length: &mut u64,
) -> u32
    ensures value { result ≡ number_of (pair_at_in Subgraph buffer.now place) }
    ensures present_after { present.new ≡ value_or present.old is_present (pair_at_in Subgraph buffer.now place) }
    ensures from_start_after { from_start.new ≡ value_or from_start.old from_start_of (pair_at_in Subgraph buffer.now place) }
    ensures from_length_after { from_length.new ≡ value_or from_length.old from_size_of (pair_at_in Subgraph buffer.now place) }
    ensures to_start_after { to_start.new ≡ value_or to_start.old to_start_of (pair_at_in Subgraph buffer.now place) }
    ensures to_length_after { to_length.new ≡ value_or to_length.old to_size_of (pair_at_in Subgraph buffer.now place) }
{
    let pair = accessors::pair_place(buffer, Kind::Subgraph, place as usize);
    number_of(pair_out(pair, present, from_start, from_length, to_start, to_length))
}

// The translation pair at a place, likewise.
#[unsafe(no_mangle)]
pub extern "C" fn graph_name_translation_at(
    buffer: &[u8],
    place: u64,
    present: &mut u64,
    from_start: &mut u64,
    from_length: &mut u64,
    to_start: &mut u64,
    to_length: &mut u64,
) -> u32
    ensures value { result ≡ number_of (pair_at_in Translation buffer.now place) }
    ensures present_after { present.new ≡ value_or present.old is_present (pair_at_in Translation buffer.now place) }
    ensures from_start_after { from_start.new ≡ value_or from_start.old from_start_of (pair_at_in Translation buffer.now place) }
    ensures from_length_after { from_length.new ≡ value_or from_length.old from_size_of (pair_at_in Translation buffer.now place) }
    ensures to_start_after { to_start.new ≡ value_or to_start.old to_start_of (pair_at_in Translation buffer.now place) }
    ensures to_length_after { to_length.new ≡ value_or to_length.old to_size_of (pair_at_in Translation buffer.now place) }
{
    let pair = accessors::pair_place(buffer, Kind::Translation, place as usize);
    number_of(pair_out(pair, present, from_start, from_length, to_start, to_length))
}

// Whether both records are named, by the same name.
#[unsafe(no_mangle)]
pub extern "C" fn graph_name_is_same(buffer: &[u8], other: &[u8], answer: &mut u64) -> u32
    ensures value { result ≡ number_of (is_same_in buffer.now other.now) }
    ensures answer_after { answer.new ≡ value_or answer.old one_if (is_same_in buffer.now other.now) }
{
    number_of(answer_out(accessors::is_same(buffer, other), answer))
}
