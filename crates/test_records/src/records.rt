// The entries that look at records and lines, and have no output. Each call is compared with the numbers of its line: the result, and the numbers
// that come out, in the order of the function's parameters; a place that goes in comes last.
use model::Kind;
use test_list::{Holder, Holders, Numbers, UNWRITTEN};

// One of them.
#[derive(Clone, Copy)]
pub enum Look {
    Counts,
    Name,
    NameAt,
    PairAt(Kind),
    IsSame,
    CheckStrict,
}

// Whether `graph_name_counts` answers so.
fn counts(record: &[u8], n: Numbers) -> bool {
    let mut names = UNWRITTEN;
    let mut subgraph = UNWRITTEN;
    let mut translation = UNWRITTEN;
    let result = graph_name::graph_name_counts(record, &mut names, &mut subgraph, &mut translation);
    n.are(&[u64::from(result), names, subgraph, translation])
}

// Whether `graph_name_name` answers so.
fn name(record: &[u8], n: Numbers) -> bool {
    let mut present = UNWRITTEN;
    let mut start = UNWRITTEN;
    let mut length = UNWRITTEN;
    let result = graph_name::graph_name_name(record, &mut present, &mut start, &mut length);
    n.are(&[u64::from(result), present, start, length])
}

// Whether `graph_name_name_at` answers so.
fn name_at(record: &[u8], n: Numbers) -> bool {
    let mut present = UNWRITTEN;
    let mut start = UNWRITTEN;
    let mut length = UNWRITTEN;
    let result = graph_name::graph_name_name_at(
        record,
        n.at(4),
        &mut present,
        &mut start,
        &mut length,
    );
    n.are(&[u64::from(result), present, start, length])
}

// Whether the entry for the pairs of a kind, `graph_name_subgraph_at` or `graph_name_translation_at`, answers so.
fn pair_at(kind: Kind, record: &[u8], n: Numbers) -> bool {
    let mut present = UNWRITTEN;
    let mut from_start = UNWRITTEN;
    let mut from_length = UNWRITTEN;
    let mut to_start = UNWRITTEN;
    let mut to_length = UNWRITTEN;
    let place = n.at(6);
    let result = match kind {
        Kind::Subgraph => graph_name::graph_name_subgraph_at(
            record,
            place,
            &mut present,
            &mut from_start,
            &mut from_length,
            &mut to_start,
            &mut to_length,
        ),
        Kind::Translation => graph_name::graph_name_translation_at(
            record,
            place,
            &mut present,
            &mut from_start,
            &mut from_length,
            &mut to_start,
            &mut to_length,
        ),
    };
    n.are(&[
        u64::from(result),
        present,
        from_start,
        from_length,
        to_start,
        to_length,
    ])
}

// Whether `graph_name_is_same` answers so.
fn is_same(record: &[u8], other: &[u8], n: Numbers) -> bool {
    let mut answer = UNWRITTEN;
    let result = graph_name::graph_name_is_same(record, other, &mut answer);
    n.are(&[u64::from(result), answer])
}

impl Look {
    // Whether it answers with the numbers of a line.
    pub fn agrees(self, holders: &Holders, n: Numbers) -> bool {
        let record = holders.get(Holder::Record);
        match self {
            Look::Counts => counts(record, n),
            Look::Name => name(record, n),
            Look::NameAt => name_at(record, n),
            Look::PairAt(kind) => pair_at(kind, record, n),
            Look::IsSame => is_same(record, holders.get(Holder::Other), n),
            Look::CheckStrict => n.are(&[graph_name::graph_name_check_strict(holders.get(
                Holder::One,
            ))]),
        }
    }
}
