// The names of two records as one ascending row of spans, and by place in each record the number of its name.
ghost use Rattle.std.specs.Prelude.{◌≡◌, ◌≤◌, ◌<◌, length};
ghost use Rattle.model.specs.Layout.{record_length, name_count, bodies_at, name_at, shown};
ghost use Rattle.record.specs.Holds.{HoldsRecord};
ghost use Rattle.union.specs.Names.{span_at, next_order, Joinable, Joined};

use record::{Record, bodies_at, body_length, body_start, name_count, name_in};
use search::ShortSpan;
use std::cmp::Ordering;
use text::compare;

// The names of a record, by place: how many there are, and where their bodies begin.
#[derive(Clone, Copy)]
pub(crate) struct RecordNames<'a> {
    pub bytes: &'a [u8],
    pub count: usize,
    pub bodies: usize,
    ghost holds: { HoldsRecord bytes.now },
    ghost counted: { count ≡ name_count bytes.now },
    ghost begun: { bodies ≡ bodies_at bytes.now },
}

impl<'a> RecordNames<'a> {
    // Those of a record.
    pub(crate) fn of(b: &Record<'a>) -> RecordNames<'a>
        ensures { shown result.bytes.now ≡ b.now }
    {
        let bytes = b.bytes();
        RecordNames {
            bytes,
            count: name_count(bytes),
            bodies: bodies_at(bytes),
        }
    }

    // The name at a place.
    fn name(self, i: usize) -> &'a [u8]
        requires { i < self.count }
        ensures { result.now ≡ name_at self.entry.bytes.now i }
    {
        name_in(self.bytes, self.bodies, i)
    }

    // Its span, with the record behind `before` bytes.
    #[tactic(auto, using(crate::proofs::Placed::name_short))]
    fn span(self, i: usize, before: usize) -> ShortSpan
        requires { (i < self.count) × (before ≤ record_length) }
        ensures { result ≡ span_at before self.entry.bytes.now i }
    {
        let start = before + self.bodies + body_start(self.bytes, i);
        ShortSpan {
            start: start as u32,
            size: body_length(self.bytes, i) as u16,
        }
    }
}

// How the names at two places compare; where there is none, the other one comes first.
#[tactic(auto, unfolding(model::specs::Layout::name_at))]
fn compare_next<'a>(b: RecordNames<'a>, c: RecordNames<'a>, i: usize, j: usize) -> Ordering
    ensures { result ≡ next_order b.entry.bytes.now c.entry.bytes.now i j }
{
    if c.count <= j {
        return Ordering::Less;
    }
    if b.count <= i {
        return Ordering::Greater;
    }
    compare(b.name(i), c.name(j))
}

// Joins the names of two records: one that both have is one. Notes the number of each by its place; gives how many there are.
pub(crate) fn join<'a>(
    b: RecordNames<'a>,
    c: RecordNames<'a>,
    spans: &mut [ShortSpan],
    first: &mut [u16],
    second: &mut [u16],
) -> usize
    requires { Joinable b.bytes.now c.bytes.now spans.old first.old second.old }
    ensures { Joined b.entry.bytes.now c.entry.bytes.now spans.new first.new second.new result }
{
    let mut i = 0;
    let mut j = 0;
    let mut v = 0;
    // By two cursors, as steps are merged: after each name one record or both go on, and the place in each is what is noted.
    while i < b.count || j < c.count {
        match compare_next(b, c, i, j) {
            Ordering::Less => {
                spans[v] = b.span(i, 0);
                first[i] = v as u16;
                i += 1;
            }
            Ordering::Greater => {
                spans[v] = c.span(j, b.bytes.len());
                second[j] = v as u16;
                j += 1;
            }
            Ordering::Equal => {
                spans[v] = b.span(i, 0);
                first[i] = v as u16;
                second[j] = v as u16;
                i += 1;
                j += 1;
            }
        }
        v += 1;
    }
    v
}
