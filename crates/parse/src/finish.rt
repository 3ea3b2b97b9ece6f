// The end of a reading: the record stored, or the empty one left with the refusal.
ghost use Rattle.std.specs.Prelude.{◌≡◌, length, IfOk};
ghost use Rattle.model.specs.Record.{judge};
ghost use Rattle.model.specs.Outcome.{outcome_of, refusal_of};
ghost use Rattle.model.specs.Layout.{record_length};
ghost use Rattle.parse.specs.Endings.{reading_of};
ghost use Rattle.parse.specs.Refusals.{refusal_in};

use crate::refusal::Refusal;
use intake::Reading;

// Ends a reading: writes the record, or the empty one.
pub(crate) fn finish(
    ended: Result<(), Refusal>,
    state: &mut Reading,
    buffer: &mut [u8],
) -> Result<(), Refusal>
    requires sizes { IfOk ended (λ _. judge state.old ≡ 0) }
    requires room { length buffer.old ≡ record_length }
    ensures refusal { refusal_in result ≡ refusal_of (reading_of ended state.old) }
    ensures buffer { buffer.new ≡ (outcome_of (reading_of ended state.old)).buffer }
{
    match ended {
        Ok(()) => state.store(buffer),
        Err(_) => buffer.fill(0),
    }
    ended
}
