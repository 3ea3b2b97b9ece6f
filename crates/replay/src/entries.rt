// The exported functions, called on the byte strings that the list sets. What comes out is compared with the numbers of a line, lent as the line
// has them, and with the byte strings that the outputs are to be.
use model::Kind;
use test_list::{ENTRIES, Holders, Numbers};
use test_records::{Edit, Look};
use test_tags::{Change, LookUp};
use test_texts::{Ask, Read, set_tags_agrees};

// One of the exported functions.
#[derive(Clone, Copy)]
pub(crate) enum Entry {
    Look(Look),
    Edit(Edit),
    Read(Read),
    Ask(Ask),
    SetTags,
    LookUp(LookUp),
    Change(Change),
}

// All of them, by their names without `graph_name_`.
pub(crate) const NAMED: [(&[u8], Entry); ENTRIES] = [
    (b"counts", Entry::Look(Look::Counts)),
    (b"name", Entry::Look(Look::Name)),
    (b"name_at", Entry::Look(Look::NameAt)),
    (b"subgraph_at", Entry::Look(Look::PairAt(Kind::Subgraph))),
    (
        b"translation_at",
        Entry::Look(Look::PairAt(Kind::Translation)),
    ),
    (b"is_same", Entry::Look(Look::IsSame)),
    (b"new", Entry::Edit(Edit::New)),
    (b"add_subgraph", Entry::Edit(Edit::AddSubgraph)),
    (b"add_translation", Entry::Edit(Edit::AddTranslation)),
    (b"make_subgraph_of", Entry::Edit(Edit::MakeSubgraphOf)),
    (b"add_translation_to", Entry::Edit(Edit::AddTranslationTo)),
    (b"add_relationships", Entry::Edit(Edit::AddRelationships)),
    (b"from_header_lines", Entry::Read(Read::FromHeaderLines)),
    (b"from_tags", Entry::Read(Read::FromTags)),
    (b"error_message", Entry::Read(Read::ErrorMessage)),
    (b"to_gfa_header_lines", Entry::Ask(Ask::ToGfaHeaderLines)),
    (b"to_gaf_header_lines", Entry::Ask(Ask::ToGafHeaderLines)),
    (b"set_tags", Entry::SetTags),
    (b"is_subgraph_of", Entry::Ask(Ask::IsSubgraphOf)),
    (b"translates_to", Entry::Ask(Ask::TranslatesTo)),
    (b"check_strict", Entry::Look(Look::CheckStrict)),
    (
        b"describe_relationship",
        Entry::Ask(Ask::DescribeRelationship),
    ),
    (b"tags_counts", Entry::LookUp(LookUp::Counts)),
    (b"tags_at", Entry::LookUp(LookUp::TagAt)),
    (b"tags_get", Entry::LookUp(LookUp::Get)),
    (b"tags_contains_key", Entry::LookUp(LookUp::ContainsKey)),
    (b"tags_insert", Entry::Change(Change::Insert)),
    (b"tags_remove", Entry::Change(Change::Remove)),
    (b"tags_set_graph_name", Entry::Change(Change::SetGraphName)),
];

impl Entry {
    // Whether it answers with the numbers of a line, on what is set.
    pub(crate) fn agrees(self, holders: &Holders, n: Numbers) -> bool {
        match self {
            Entry::Look(look) => look.agrees(holders, n),
            Entry::Edit(edit) => edit.agrees(holders, n),
            Entry::Read(read) => read.agrees(holders, n),
            Entry::Ask(ask) => ask.agrees(holders, n),
            Entry::SetTags => set_tags_agrees(holders, n),
            Entry::LookUp(look_up) => look_up.agrees(holders, n),
            Entry::Change(change) => change.agrees(holders, n),
        }
    }
}
