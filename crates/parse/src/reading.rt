// A text read field by field.
ghost use Rattle.std.specs.Prelude.{◌≡◌, IfOk};
ghost use Rattle.model.specs.Record.{judge};
ghost use Rattle.fields.specs.Rest.{first_stop, rest_of};
ghost use Rattle.parse.specs.Endings.{reading_of};

use crate::refusal::Refusal;
use fields::{Fields, Source, Tally};
use intake::Reading;

// Reads all of a text, up to the first fault.
pub(crate) fn read_text(source: Source, text: &[u8], state: &mut Reading) -> Result<(), Refusal>
    requires { judge state.old ≡ 0 }
    ensures reading { reading_of result state.new ≡ rest_of source text.now 0 (first_stop source text.now) 0 state.old }
    ensures sizes { IfOk result (λ _. judge state.new ≡ 0) }
{
    let mut fields = Fields::new(source, text);
    let mut tally = Tally::default();
    // Not a `for`: the tally is lent for each field, since document 01 counts beside the reader.
    while let Some(field) = fields.next(&mut tally) {
        let part = &text[field.start..field.start + field.size];
        state
            .take_field(part, field.content)
            .map_err(|fault| Refusal::of_field(fault, field, tally))?;
    }
    Ok(())
}
