// What a record or a tag list holds, as the functions that look at one say it: counts, and where things stand.

// How many distinct names, and how many pairs of each kind.
#[derive(Clone, Copy, Debug, PartialEq, Eq)]
pub struct Counts {
    pub names: usize,
    pub subgraph: usize,
    pub translation: usize,
}

// A part of a buffer.
#[derive(Clone, Copy, Debug, PartialEq, Eq)]
pub struct Part {
    pub start: usize,
    pub size: usize,
}

// Where the two names of a pair stand.
#[derive(Clone, Copy, Debug, PartialEq, Eq)]
pub struct PairParts {
    pub from: Part,
    pub to: Part,
}

// Where a tag's key and its value stand.
#[derive(Clone, Copy, Debug, PartialEq, Eq)]
pub struct TagParts {
    pub key: Part,
    pub value: Part,
}

// How long the value of each of a record's three tags is, if it is there.
#[derive(Clone, Copy, Debug, PartialEq, Eq)]
pub struct TagSizes {
    pub name: Option<usize>,
    pub subgraph: Option<usize>,
    pub translation: Option<usize>,
}
