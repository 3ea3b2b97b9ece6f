// The entries on records with an output and one number: header lines, path questions and the description. The line has the result, and of a
// question its answer, of the others how many bytes were written.
use test_list::{Holder, Holders, Numbers, UNWRITTEN};

// One of them.
#[derive(Clone, Copy)]
pub enum Ask {
    ToGfaHeaderLines,
    ToGafHeaderLines,
    IsSubgraphOf,
    TranslatesTo,
    DescribeRelationship,
}

impl Ask {
    // Its result, with an output and a number that it writes.
    fn result(self, holders: &Holders, out: &mut [u8], x: &mut u64) -> u32 {
        let record = holders.get(Holder::Record);
        let other = holders.get(Holder::Other);
        match self {
            Ask::ToGfaHeaderLines => graph_name::graph_name_to_gfa_header_lines(record, out, x),
            Ask::ToGafHeaderLines => graph_name::graph_name_to_gaf_header_lines(record, out, x),
            Ask::IsSubgraphOf => graph_name::graph_name_is_subgraph_of(record, other, out, x),
            Ask::TranslatesTo => graph_name::graph_name_translates_to(record, other, out, x),
            Ask::DescribeRelationship => graph_name::graph_name_describe_relationship(
                record,
                other,
                holders.get(Holder::One),
                holders.get(Holder::Two),
                out,
                x,
            ),
        }
    }

    // Whether it answers with the numbers of a line, and the output comes out as `want` says.
    pub fn agrees(self, holders: &Holders, n: Numbers) -> bool {
        holders.agrees_on_copy(Holder::Out, Holder::Want, |out| {
            let mut x = UNWRITTEN;
            let result = self.result(holders, out, &mut x);
            n.are(&[u64::from(result), x])
        })
    }
}
