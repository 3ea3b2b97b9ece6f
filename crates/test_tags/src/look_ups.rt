// The entries that look at a tag list. The line has the result, the numbers that come out, in the order of the function's parameters, and a
// place that goes in.
use test_list::{Holder, Holders, Numbers, UNWRITTEN};

// One of them.
#[derive(Clone, Copy)]
pub enum LookUp {
    Counts,
    TagAt,
    Get,
    ContainsKey,
}

// Whether `graph_name_tags_counts` answers so.
fn counts(list: &[u8], n: Numbers) -> bool {
    let mut tags = UNWRITTEN;
    let result = graph_name::graph_name_tags_counts(list, &mut tags);
    n.are(&[u64::from(result), tags])
}

// Whether `graph_name_tags_at` answers so.
fn tag_at(list: &[u8], n: Numbers) -> bool {
    let mut present = UNWRITTEN;
    let mut key_start = UNWRITTEN;
    let mut key_length = UNWRITTEN;
    let mut value_start = UNWRITTEN;
    let mut value_length = UNWRITTEN;
    let result = graph_name::graph_name_tags_at(
        list,
        n.at(6),
        &mut present,
        &mut key_start,
        &mut key_length,
        &mut value_start,
        &mut value_length,
    );
    n.are(&[
        u64::from(result),
        present,
        key_start,
        key_length,
        value_start,
        value_length,
    ])
}

// Whether `graph_name_tags_get` answers so.
fn get(list: &[u8], key: &[u8], n: Numbers) -> bool {
    let mut present = UNWRITTEN;
    let mut start = UNWRITTEN;
    let mut length = UNWRITTEN;
    let result = graph_name::graph_name_tags_get(list, key, &mut present, &mut start, &mut length);
    n.are(&[u64::from(result), present, start, length])
}

// Whether `graph_name_tags_contains_key` answers so.
fn contains_key(list: &[u8], key: &[u8], n: Numbers) -> bool {
    let mut answer = UNWRITTEN;
    let result = graph_name::graph_name_tags_contains_key(list, key, &mut answer);
    n.are(&[u64::from(result), answer])
}

impl LookUp {
    // Whether it answers with the numbers of a line.
    pub fn agrees(self, holders: &Holders, n: Numbers) -> bool {
        let list = holders.get(Holder::Tags);
        let key = holders.get(Holder::One);
        match self {
            LookUp::Counts => counts(list, n),
            LookUp::TagAt => tag_at(list, n),
            LookUp::Get => get(list, key, n),
            LookUp::ContainsKey => contains_key(list, key, n),
        }
    }
}
