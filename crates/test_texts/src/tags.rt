// The entry with three outputs, which writes the tags of a record: each output is to come out as its `want` says.
use test_list::{Holder, Holders, Numbers, UNWRITTEN};

// Whether the numbers of `graph_name_set_tags` are so.
fn answered(
    record: &[u8],
    n: Numbers,
    name: &mut [u8],
    subgraph: &mut [u8],
    translation: &mut [u8],
) -> bool {
    let mut has_name = UNWRITTEN;
    let mut name_length = UNWRITTEN;
    let mut has_subgraph = UNWRITTEN;
    let mut subgraph_length = UNWRITTEN;
    let mut has_translation = UNWRITTEN;
    let mut translation_length = UNWRITTEN;
    let result = graph_name::graph_name_set_tags(
        record,
        name,
        subgraph,
        translation,
        &mut has_name,
        &mut name_length,
        &mut has_subgraph,
        &mut subgraph_length,
        &mut has_translation,
        &mut translation_length,
    );
    n.are(&[
        u64::from(result),
        has_name,
        name_length,
        has_subgraph,
        subgraph_length,
        has_translation,
        translation_length,
    ])
}

// Whether `graph_name_set_tags` answers with the numbers of a line, and its outputs come out as they are to.
pub fn set_tags_agrees(holders: &Holders, n: Numbers) -> bool {
    let record = holders.get(Holder::Record);
    holders.agrees_on_copy(Holder::Out, Holder::Want, |name| {
        holders.agrees_on_copy(Holder::OutTwo, Holder::WantTwo, |subgraph| {
            holders.agrees_on_copy(Holder::OutThree, Holder::WantThree, |translation| {
                answered(record, n, name, subgraph, translation)
            })
        })
    })
}
