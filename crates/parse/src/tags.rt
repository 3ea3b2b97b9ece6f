// Reading the values of the three tags: name, subgraph, translation.
ghost use Rattle.std.specs.Prelude.{◌≡◌, IfOk};
ghost use Rattle.std.specs.Option.{option_copied};
ghost use Rattle.model.specs.Record.{empty, judge};
ghost use Rattle.model.specs.Reading.{name_value, add_to, tag_number, tag_value, from_tags};
ghost use Rattle.model.specs.Outcome.{read_tags_into, refusal_into};
ghost use Rattle.parse.specs.Endings.{reading_of};
ghost use Rattle.parse.specs.Refusals.{refusal_in};

use crate::finish::finish;
use crate::reading::read_text;
use crate::refusal::Refusal;
use fields::{Content, Source};
use intake::Reading;
use model::{Fault, Kind};
use record::RECORD_LENGTH;

// The name's tag, if it is there.
#[tactic(auto, unfolding(model::specs::Reading::name_value))]
fn read_name(name: Option<&[u8]>, state: &mut Reading) -> Result<(), Refusal>
    requires { judge state.old ≡ 0 }
    ensures reading { reading_of result state.new ≡ name_value (option_copied name.entry) state.old }
    ensures sizes { IfOk result (λ _. judge state.new ≡ 0) }
{
    let Some(name) = name else {
        return Ok(());
    };
    Ok(state.take_field(name, Ok(Content::Name(0)))?)
}

// The tag of a kind of relation, if it is there.
#[tactic(auto, using(fields::proofs::Rest::tag_start), unfolding(model::specs::Reading::tag_value))]
fn read_tag(kind: Kind, value: Option<&[u8]>, state: &mut Reading) -> Result<(), Refusal>
    requires { judge state.old ≡ 0 }
    ensures reading { reading_of result state.new ≡ tag_value (tag_number kind) (add_to kind) (option_copied value.entry) state.old }
    ensures sizes { IfOk result (λ _. judge state.new ≡ 0) }
{
    match value {
        None => Ok(()),
        Some(value) => read_text(Source::Tag(kind), value, state),
    }
}

// The three tags, where nothing is taken yet.
#[tactic(auto, using(crate::proofs::TagValues::in_turn), unfolding(model::specs::Reading::from_tags))]
fn read_tags(
    name: Option<&[u8]>,
    subgraph: Option<&[u8]>,
    translation: Option<&[u8]>,
    state: &mut Reading,
) -> Result<(), Refusal>
    requires { state.old ≡ empty }
    ensures reading { reading_of result state.new ≡ from_tags (option_copied name.entry) (option_copied subgraph.entry) (option_copied translation.entry) }
    ensures sizes { IfOk result (λ _. judge state.new ≡ 0) }
{
    read_name(name, state)?;
    read_tag(Kind::Subgraph, subgraph, state)?;
    read_tag(Kind::Translation, translation, state)
}

// Reads the values of the three tags, each there or not, into a record buffer. They come one by one, as the Rust and C have them.
#[tactic(auto, using(crate::proofs::Finished::ends), unfolding(model::specs::Outcome::read_tags_into))]
pub fn from_tags(
    name: Option<&[u8]>,
    subgraph: Option<&[u8]>,
    translation: Option<&[u8]>,
    buffer: &mut [u8],
) -> Result<(), Refusal>
    ensures refusal { refusal_in result ≡ refusal_into (from_tags (option_copied name.entry) (option_copied subgraph.entry) (option_copied translation.entry)) buffer.old }
    ensures buffer { buffer.new ≡ (read_tags_into (option_copied name.entry) (option_copied subgraph.entry) (option_copied translation.entry) buffer.old).buffer }
{
    if buffer.len() != RECORD_LENGTH {
        return Err(Refusal::from(Fault::WrongBuffer));
    }
    let mut state = Reading::new();
    let ended = read_tags(name, subgraph, translation, &mut state);
    finish(ended, &mut state, buffer)
}
