// Why a reading is refused, and where.
ghost use Rattle.std.specs.Prelude.{◌≡◌};
ghost use Rattle.model.specs.Faults.{fault_number};
ghost use Rattle.model.specs.Reading.{quotes};
ghost use Rattle.model.specs.Outcome.{refusal_of};
ghost use Rattle.fields.specs.Rest.{refuse_field};
ghost use Rattle.parse.specs.Refusals.{refusal_given, unplaced};

use fields::{Field, Tally};
use model::Fault;

// A refusal, as C has it: why; its line (from 1; 0 for none); the part of the text that it quotes (0 and 0 for none); and its offset: the byte of
// the text at which that part begins, or the line or field where none is quoted.
#[derive(Clone, Copy, Debug, PartialEq, Eq)]
pub struct Refusal {
    pub fault: Fault,
    pub line: usize,
    pub start: usize,
    pub size: usize,
    pub offset: usize,
}

// Whether a refusal quotes a part of the text.
fn quotes_part(fault: Fault) -> bool
    ensures { result ≡ quotes (fault_number fault) }
{
    matches!(
        fault,
        Fault::UnknownFirstField
            | Fault::BadTypedField
            | Fault::BadSubgraphField
            | Fault::BadTranslationField
            | Fault::BadNameLine
            | Fault::BadSubgraphLine
            | Fault::BadTranslationLine
            | Fault::BadSubgraphRelation
            | Fault::BadTranslationRelation
    )
}

impl Refusal {
    // The refusal of a field, counted by a tally: it quotes the field's part and has the offset of that, or quotes nothing and has the field's.
    pub(crate) fn of_field(fault: Fault, field: Field, tally: Tally) -> Refusal
        ensures { refusal_given result ≡ refusal_of (refuse_field field tally (fault_number fault)) }
    {
        let line = tally.lines;
        if quotes_part(fault) {
            return Refusal {
                fault,
                line,
                start: field.start,
                size: field.size,
                offset: field.start,
            };
        }
        Refusal {
            fault,
            line,
            start: 0,
            size: 0,
            offset: field.offset,
        }
    }
}

// A refusal that has no line and quotes nothing, at the front of what is read.
impl From<Fault> for Refusal {
    ghost from_gives = { λ fault refusal. refusal_given refusal ≡ unplaced (fault_number fault) };

    fn from(fault: Fault) -> Refusal {
        Refusal {
            fault,
            line: 0,
            start: 0,
            size: 0,
            offset: 0,
        }
    }
}
