// The path questions on any two buffers: the tests, and tables of a fitting size.
ghost use Rattle.std.specs.Prelude.{◌≡◌, ◌+◌, ◌≤◌, ◌<◌, length};
ghost use Rattle.model.specs.Outcome.{ask_subgraph, ask_full};
ghost use Rattle.path_bytes.specs.Replies.{Replies};
ghost use Rattle.union.specs.United.{names_of_both, pairs_of_two};
ghost use Rattle.questions.specs.Asked.{ask_of, AreOwn, answer_of};
ghost use Rattle.questions.specs.Room.{Roomy};

use crate::tables::{
    LARGE_NAMES, LARGE_PAIRS, LARGE_STARTS, SMALL_NAMES, SMALL_PAIRS, SMALL_STARTS, Tables, size_of,
};
use model::Fault;
use path_bytes::find_path;
use record::Record;
use search::{Graph, Search, ShortSpan, Step};
use text::filled;
use union::{Question, unite};

// The places of two records' own names.
#[derive(Clone, Copy)]
struct Own {
    first: usize,
    second: usize,
}

// The path between the own names of two records, over the pairs of both, in tables that are lent.
fn ask_in<'a>(
    b: Record<'a>,
    c: Record<'a>,
    own: Own,
    question: Question,
    tables: Tables<'a>,
    out: &mut [u8],
) -> Result<bool, Fault>
    requires { AreOwn b c own × Roomy b c tables }
    ensures { Replies (answer_of question b.entry c.entry (length out.old)) out.old result out.new }
{
    let Tables {
        rows,
        spans,
        numbers,
        steps,
        starts,
        places,
    } = tables;
    let united = unite(&b, &c, question, rows, spans, numbers, steps);
    let nodes = united.names.spans.len();
    let from = usize::from(united.first[own.first]);
    let target = usize::from(united.second[own.second]);
    let graph = Graph::new(united.steps, &mut starts[..nodes + 1]);
    let search = Search {
        queue: &mut rows[..nodes],
        places: &mut places[..nodes],
    };
    find_path(united.names, graph, from, target, search, out)
}

// The same in tables of these sizes. STARTS is one more than NAMES, which a const argument can't compute.
fn ask_sized<'a, const PAIRS: usize, const NAMES: usize, const STARTS: usize>(
    b: Record<'a>,
    c: Record<'a>,
    own: Own,
    question: Question,
    out: &mut [u8],
) -> Result<bool, Fault>
    requires own { AreOwn b c own }
    requires names { names_of_both b c ≤ NAMES }
    requires pairs { pairs_of_two b c ≤ PAIRS }
    requires sizes { (NAMES < STARTS) × (NAMES ≤ PAIRS) × (PAIRS < 65536) × (STARTS < 65536) }
    ensures { Replies (answer_of question b.entry c.entry (length out.old)) out.old result out.new }
{
    let mut rows: [Step; PAIRS] = filled(Step::start(0));
    let mut spans: [ShortSpan; NAMES] = filled(ShortSpan { start: 0, size: 0 });
    let mut numbers: [u16; NAMES] = filled(0);
    let mut steps: [Step; PAIRS] = filled(Step::start(0));
    let mut starts: [u16; STARTS] = filled(0);
    let mut places: [Option<u16>; NAMES] = filled(None);
    let tables = Tables {
        rows: &mut rows,
        spans: &mut spans,
        numbers: &mut numbers,
        steps: &mut steps,
        starts: &mut starts,
        places: &mut places,
    };
    ask_in(b, c, own, question, tables, out)
}

// The path from the graph that b describes to the one that c describes, over the pairs of both records that the question goes by.
fn ask<'a>(b: &'a [u8], c: &'a [u8], question: Question, out: &mut [u8]) -> Result<bool, Fault>
    ensures { Replies (ask_of question b.now c.now (length out.old)) out.old result out.new }
{
    let (b, c) = Record::open_both(b, c)?;
    let Some(first) = b.own_place() else {
        return Ok(false);
    };
    let Some(second) = c.own_place() else {
        return Ok(false);
    };
    let own = Own { first, second };
    let size = size_of(&b, &c);
    if size.names <= SMALL_NAMES && size.pairs <= SMALL_PAIRS {
        return ask_sized::<SMALL_PAIRS, SMALL_NAMES, SMALL_STARTS>(b, c, own, question, out);
    }
    ask_sized::<LARGE_PAIRS, LARGE_NAMES, LARGE_STARTS>(b, c, own, question, out)
}

// The two path questions have the Rust's names, and a line each.

// Whether the graph of b is a subgraph of that of c, by subgraph pairs; on a yes the path's bytes go to the front of the output.
pub fn is_subgraph_of<'a>(b: &'a [u8], c: &'a [u8], out: &mut [u8]) -> Result<bool, Fault>
    ensures { Replies (ask_subgraph b.now c.now (length out.old)) out.old result out.new }
{
    ask(b, c, Question::Subgraph, out)
}

// Whether coordinates of the graph of b translate to that of c, by pairs of both kinds; on a yes the path's bytes go to the front of
// the output.
pub fn translates_to<'a>(b: &'a [u8], c: &'a [u8], out: &mut [u8]) -> Result<bool, Fault>
    ensures { Replies (ask_full b.now c.now (length out.old)) out.old result out.new }
{
    ask(b, c, Question::Full, out)
}
