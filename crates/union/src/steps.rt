// The pairs of two records as one ascending table of steps between the numbers of their names.
ghost use Rattle.std.specs.Prelude.{◌≡◌, ◌≤◌, length};
ghost use Rattle.model.specs.Layout.{pair_count};
ghost use Rattle.union.specs.Steps.{Rowable, IsRow, Gatherable, by_kind, by_question, pairs_of_kind, pairs_of_both, Gathered};

use model::Kind;
use record::{PAIR_LENGTH, pair_count, pair_from, pair_to, table_at};
use search::{Step, merge};

// Which relations a question goes by: subgraph pairs alone, or the pairs of both kinds.
#[derive(Clone, Copy, Debug, PartialEq, Eq)]
pub enum Question {
    Subgraph,
    Full,
}

// A record, and by place the number of the name there.
#[derive(Clone, Copy)]
pub(crate) struct NumberedRecord<'a> {
    pub bytes: &'a [u8],
    pub numbers: &'a [u16],
}

impl<'a> NumberedRecord<'a> {
    // The steps of its pairs of one kind, in a row of their number.
    fn read_row(self, kind: Kind, row: &mut [Step])
        requires { Rowable self.bytes.now kind self.numbers.now × (length row.old ≡ pair_count kind self.bytes.now) }
        ensures { IsRow self.entry.bytes.now kind self.entry.numbers.now row.new }
    {
        let table = table_at(self.bytes, kind);
        for (p, step) in row.iter_mut().enumerate() {
            let pair = table + PAIR_LENGTH * p;
            let from = self.numbers[pair_from(self.bytes, pair)];
            let to = self.numbers[pair_to(self.bytes, pair)];
            *step = Step::new(usize::from(from), kind, usize::from(to));
        }
    }
}

// The steps of the pairs of one kind of both records, in `out`; gives how many there are. The rows of each record are read into `rows`.
fn kind_steps<'a>(
    b: NumberedRecord<'a>,
    c: NumberedRecord<'a>,
    kind: Kind,
    rows: &mut [Step],
    out: &mut [Step],
) -> usize
    requires { Gatherable b.bytes.now b.numbers.now c.bytes.now c.numbers.now (pairs_of_kind kind b.bytes.now c.bytes.now) rows.old out.old }
    ensures { Gathered b.entry.bytes.now b.entry.numbers.now c.entry.bytes.now c.entry.numbers.now (by_kind kind) (pairs_of_kind kind b.entry.bytes.now c.entry.bytes.now) out.new result }
{
    let (first, rest) = rows.split_at_mut(pair_count(b.bytes, kind));
    let (second, _) = rest.split_at_mut(pair_count(c.bytes, kind));
    b.read_row(kind, first);
    c.read_row(kind, second);
    merge(first, second, out)
}

// The steps that a question goes by, in `steps`; gives how many there are. The table `rows` is for the rows that they are merged of.
pub(crate) fn question_steps<'a>(
    b: NumberedRecord<'a>,
    c: NumberedRecord<'a>,
    question: Question,
    rows: &mut [Step],
    steps: &mut [Step],
) -> usize
    requires { Gatherable b.bytes.now b.numbers.now c.bytes.now c.numbers.now (pairs_of_both b.bytes.now c.bytes.now) rows.old steps.old }
    ensures { Gathered b.entry.bytes.now b.entry.numbers.now c.entry.bytes.now c.entry.numbers.now (by_question question) (pairs_of_both b.entry.bytes.now c.entry.bytes.now) steps.new result }
{
    match question {
        Question::Subgraph => kind_steps(b, c, Kind::Subgraph, rows, steps),
        Question::Full => {
            let subgraphs = kind_steps(b, c, Kind::Subgraph, steps, rows);
            let (first, rest) = rows.split_at_mut(subgraphs);
            let translations = kind_steps(b, c, Kind::Translation, steps, rest);
            let (second, _) = rest.split_at_mut(translations);
            merge(first, second, steps)
        }
    }
}
