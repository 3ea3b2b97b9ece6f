// The pairs of a record as text: the lines of either format, and the relations of a tag.
ghost use Rattle.std.specs.Prelude.{◌≡◌};
ghost use Rattle.model.specs.Questions.{pairs_of};
ghost use Rattle.model.specs.Writing.{relations_tag};
ghost use Rattle.text.specs.Appending.{Appends};
ghost use Rattle.record.specs.Pairs.{pairs_left};
ghost use Rattle.export.specs.Texts.{pair_text, pair_texts, value_text};

use model::Kind;
use record::{Pairs, Record};
use text::{append, append_byte};

// What stands around the two names of a pair.
#[derive(Clone, Copy)]
pub(crate) struct Around<'a> {
    pub(crate) before: &'a [u8],
    pub(crate) between: u8,
    pub(crate) after: &'a [u8],
}

// Appends two names, and what stands around them. Inlined, since each writer knows what that is: relations are written in two thirds of the
// time, lines in four fifths.
#[inline(always)]
fn append_pair(out: &mut [u8], at: usize, from: &[u8], to: &[u8], around: Around) -> usize
    ensures { Appends out.old at (pair_text around.entry.before.now around.entry.between around.entry.after.now from.now to.now) result out.new }
{
    let p = append(out, at, around.before);
    let q = append(out, p, from);
    let r = append_byte(out, q, around.between);
    let s = append(out, r, to);
    append(out, s, around.after)
}

// Appends the names of each pair, and what stands around them; inlined likewise.
#[inline(always)]
pub(crate) fn append_pairs<'a>(out: &mut [u8], at: usize, pairs: Pairs<'a>, around: Around) -> usize
    ensures { Appends out.old at (pair_texts around.entry.before.now around.entry.between around.entry.after.now (pairs_left pairs.entry)) result out.new }
{
    let mut q = at;
    for (from, to) in pairs {
        q = append_pair(out, q, from, to, around);
    }
    q
}

// Appends the relations of a kind to the front of the output: `from,to` for each pair, semicolons between.
pub(crate) fn append_relations(out: &mut [u8], graph: &Record, kind: Kind) -> usize
    ensures { Appends out.old 0 (value_text (relations_tag (pairs_of kind graph.now))) result out.new }
{
    let alone = Around {
        before: b"",
        between: b',',
        after: b"",
    };
    let further = Around {
        before: b";",
        ..alone
    };
    let mut pairs = graph.pairs(kind);
    let Some((from, to)) = pairs.next() else {
        return 0;
    };
    let p = append_pair(out, 0, from, to, alone);
    append_pairs(out, p, pairs, further)
}
