// The entries that change a tag list, which is to come out as `want_tags` says. The line has the result, and of a removal the two numbers
// that come out.
use test_list::{Holder, Holders, Numbers, UNWRITTEN};

// One of them.
#[derive(Clone, Copy)]
pub enum Change {
    Insert,
    Remove,
    SetGraphName,
}

// Whether `graph_name_tags_insert` answers so.
fn insert(list: &mut [u8], key: &[u8], value: &[u8], n: Numbers) -> bool {
    let result = graph_name::graph_name_tags_insert(list, key, value);
    n.are(&[u64::from(result)])
}

// Whether `graph_name_tags_remove` answers so.
fn remove(list: &mut [u8], key: &[u8], out: &mut [u8], n: Numbers) -> bool {
    let mut present = UNWRITTEN;
    let mut written = UNWRITTEN;
    let result = graph_name::graph_name_tags_remove(list, key, out, &mut present, &mut written);
    n.are(&[u64::from(result), present, written])
}

// Whether `graph_name_tags_set_graph_name` answers so.
fn set_graph_name(list: &mut [u8], record: &[u8], n: Numbers) -> bool {
    let result = graph_name::graph_name_tags_set_graph_name(list, record);
    n.are(&[u64::from(result)])
}

impl Change {
    // Whether it answers with the numbers of a line, and the tag list and the output come out as they are to.
    pub fn agrees(self, holders: &Holders, n: Numbers) -> bool {
        let one = holders.get(Holder::One);
        holders.agrees_on_copy(Holder::Tags, Holder::WantTags, |list| match self {
            Change::Insert => insert(list, one, holders.get(Holder::Two), n),
            Change::Remove => holders.agrees_on_copy(Holder::Out, Holder::Want, |out| {
                remove(list, one, out, n)
            }),
            Change::SetGraphName => set_graph_name(list, holders.get(Holder::Record), n),
        })
    }
}
