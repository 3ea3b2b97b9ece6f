// The answer to a question.
ghost use Rattle.std.specs.Prelude.{◌≡◌};
ghost use Rattle.model.specs.Opening.{value_or, settled};
ghost use Rattle.model.specs.Values.{one_if};

use model::Fault;

// Hands out a yes or no: 1 or 0.
pub fn answer_out(given: Result<bool, Fault>, answer: &mut u64) -> Result<(), Fault>
    ensures value { result ≡ settled given }
    ensures answer_after { answer.new ≡ value_or answer.old one_if given }
{
    *answer = given?.into();
    Ok(())
}
