// How much a reading has in use.
use sorted::Sizes;

// How much of the tables is in use, by the names of all pairs, and the length of the own name, if there is one.
#[derive(Clone, Copy, Debug, Default, PartialEq, Eq)]
pub struct State {
    pub sizes: Sizes,
    pub own: Option<usize>,
}
