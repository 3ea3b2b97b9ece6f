// Reading header lines.
ghost use Rattle.std.specs.Prelude.{◌≡◌};
ghost use Rattle.model.specs.Reading.{from_header_lines};
ghost use Rattle.model.specs.Outcome.{read_into, refusal_into};
ghost use Rattle.parse.specs.Refusals.{refusal_in};

use crate::finish::finish;
use crate::reading::read_text;
use crate::refusal::Refusal;
use fields::Source;
use intake::Reading;
use model::Fault;
use record::RECORD_LENGTH;

// Reads header lines into a record buffer.
#[tactic(auto, using(crate::proofs::Finished::ends), unfolding(model::specs::Outcome::read_into))]
pub fn from_header_lines(text: &[u8], buffer: &mut [u8]) -> Result<(), Refusal>
    ensures refusal { refusal_in result ≡ refusal_into (from_header_lines text.now) buffer.old }
    ensures buffer { buffer.new ≡ (read_into text.now buffer.old).buffer }
{
    if buffer.len() != RECORD_LENGTH {
        return Err(Refusal::from(Fault::WrongBuffer));
    }
    let mut state = Reading::new();
    let ended = read_text(Source::Header, text, &mut state);
    finish(ended, &mut state, buffer)
}
