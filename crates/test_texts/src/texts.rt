// The entries that read texts and tags, and the one that writes messages. The line has the result, the numbers that come out, and then
// those that go in, in the order of the function's parameters.
use test_list::{Holder, Holders, Numbers, UNWRITTEN};

// One of them.
#[derive(Clone, Copy)]
pub enum Read {
    FromHeaderLines,
    FromTags,
    ErrorMessage,
}

// Whether `graph_name_from_header_lines` answers so.
fn from_header_lines(one: &[u8], n: Numbers, out: &mut [u8]) -> bool {
    let mut line = UNWRITTEN;
    let mut start = UNWRITTEN;
    let mut length = UNWRITTEN;
    let mut offset = UNWRITTEN;
    let result = graph_name::graph_name_from_header_lines(
        one,
        out,
        &mut line,
        &mut start,
        &mut length,
        &mut offset,
    );
    n.are(&[u64::from(result), line, start, length, offset])
}

// Whether `graph_name_from_tags` answers so.
fn from_tags(holders: &Holders, n: Numbers, out: &mut [u8]) -> bool {
    let mut line = UNWRITTEN;
    let mut start = UNWRITTEN;
    let mut length = UNWRITTEN;
    let mut offset = UNWRITTEN;
    let result = graph_name::graph_name_from_tags(
        n.narrow(5),
        holders.get(Holder::One),
        n.narrow(6),
        holders.get(Holder::Two),
        n.narrow(7),
        holders.get(Holder::Three),
        out,
        &mut line,
        &mut start,
        &mut length,
        &mut offset,
    );
    n.are(&[u64::from(result), line, start, length, offset])
}

// Whether `graph_name_error_message` answers so.
fn error_message(one: &[u8], n: Numbers, out: &mut [u8]) -> bool {
    let mut written = UNWRITTEN;
    let result = graph_name::graph_name_error_message(n.narrow(2), n.at(3), one, out, &mut written);
    n.are(&[u64::from(result), written])
}

impl Read {
    // Whether it answers with the numbers of a line, and the output comes out as `want` says.
    pub fn agrees(self, holders: &Holders, n: Numbers) -> bool {
        let one = holders.get(Holder::One);
        holders.agrees_on_copy(Holder::Out, Holder::Want, |out| match self {
            Read::FromHeaderLines => from_header_lines(one, n, out),
            Read::FromTags => from_tags(holders, n, out),
            Read::ErrorMessage => error_message(one, n, out),
        })
    }
}
