// Two records as nodes and steps, in tables that are lent.
ghost use Rattle.union.specs.United.{Unitable, IsUnited};

use crate::names::{RecordNames, join};
use crate::steps::{NumberedRecord, Question, question_steps};
use record::Record;
use search::{ShortNames, ShortSpan, Step};

// The names of the nodes, and the steps between them; by place in each record, the node of the name there.
#[derive(Clone, Copy)]
pub struct United<'a> {
    pub names: ShortNames<'a>,
    pub steps: &'a [Step],
    pub first: &'a [u16],
    pub second: &'a [u16],
}

// The names of both records as nodes, in `spans`, with the node of each by its place in `numbers`; and the steps that a question goes by,
// in `steps`. The table `rows` is for rows that are merged.
pub fn unite<'a>(
    b: &Record<'a>,
    c: &Record<'a>,
    question: Question,
    rows: &mut [Step],
    spans: &'a mut [ShortSpan],
    numbers: &'a mut [u16],
    steps: &'a mut [Step],
) -> United<'a>
    requires { Unitable b.now c.now rows.old spans.old numbers.old steps.old }
    ensures { IsUnited question b.now c.now result }
{
    let b = RecordNames::of(b);
    let c = RecordNames::of(c);
    let (first, second) = numbers.split_at_mut(b.count);
    let nodes = join(b, c, spans, first, second);
    let mine = NumberedRecord {
        bytes: b.bytes,
        numbers: first,
    };
    let other = NumberedRecord {
        bytes: c.bytes,
        numbers: second,
    };
    let count = question_steps(mine, other, question, rows, steps);
    United {
        names: ShortNames {
            first: b.bytes,
            second: c.bytes,
            spans: &spans[..nodes],
        },
        steps: &steps[..count],
        first,
        second,
    }
}
