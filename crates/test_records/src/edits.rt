// The entries that make and change records. The line has the result alone.
use test_list::{Holder, Holders, Numbers};

// One of them.
#[derive(Clone, Copy)]
pub enum Edit {
    New,
    AddSubgraph,
    AddTranslation,
    MakeSubgraphOf,
    AddTranslationTo,
    AddRelationships,
}

impl Edit {
    // Its result, on a record.
    fn result(self, record: &mut [u8], holders: &Holders) -> u32 {
        let other = holders.get(Holder::Other);
        let one = holders.get(Holder::One);
        let two = holders.get(Holder::Two);
        match self {
            Edit::New => graph_name::graph_name_new(one, record),
            Edit::AddSubgraph => graph_name::graph_name_add_subgraph(record, one, two),
            Edit::AddTranslation => graph_name::graph_name_add_translation(record, one, two),
            Edit::MakeSubgraphOf => graph_name::graph_name_make_subgraph_of(record, other),
            Edit::AddTranslationTo => graph_name::graph_name_add_translation_to(record, other),
            Edit::AddRelationships => graph_name::graph_name_add_relationships(record, other),
        }
    }

    // Whether it has the result of a line, and the record comes out as `want` says.
    pub fn agrees(self, holders: &Holders, n: Numbers) -> bool {
        holders.agrees_on_copy(Holder::Out, Holder::Want, |record| {
            n.are(&[u64::from(self.result(record, holders))])
        })
    }
}
