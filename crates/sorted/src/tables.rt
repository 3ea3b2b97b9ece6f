// The working tables: names as ascending numbers for bodies in a pool, pairs of either kind as ascending numbers of two places.
ghost use Rattle.std.specs.Prelude.{◌≡◌, ◌<◌, take, None};
ghost use Rattle.std.specs.List.Sorted.{IsSearchInRange};
ghost use Rattle.model.specs.Bytes.{compare_bytes};
ghost use Rattle.model.specs.Record.{empty};
ghost use Rattle.sorted.specs.Sorted.{sought};
ghost use Rattle.sorted.specs.Tables.{table_names, graph_in, numbers_of, fresh, Kept, NameRoom, PairRoom, NamePut, PairPut};
ghost use Rattle.sorted.specs.Loading.{sizes_of, TableRoom, Good, Loaded};

use crate::appending::append;
use crate::inserting::insert_at;
use crate::loading::{load_bodies, load_rows};
use crate::numbers::{put_number, renumber};
use crate::putting;
use crate::putting::{Sizes, moved_place, seek_near};
use arrayvec::ArrayVec;
use model::Kind;
use record::{Record, Rows};
use std::marker::Model;

// Tables for so many names, pairs of each kind and bytes of their bodies. A name is one number and so is a pair, so that one order and one
// insertion serve both.
#[derive(Clone, Drop)]
pub struct Tables<const NAMES: usize, const PAIRS: usize, const BYTES: usize> {
    refs: ArrayVec<u32, NAMES>,
    subs: ArrayVec<u32, PAIRS>,
    trans: ArrayVec<u32, PAIRS>,
    pool: ArrayVec<u8, BYTES>,
}

// Clauses see the tables as lists with their lengths; what they hold is always in order.
impl<const NAMES: usize, const PAIRS: usize, const BYTES: usize> Model
    for Tables<NAMES, PAIRS, BYTES> {
    ghost use Rattle.std.specs.Prelude.{◌<◌};
    ghost use Rattle.sorted.specs.Tables.{Tables, holding, Kept};

    ghost Value = { Tables };

    ghost view = { λ t. holding t.refs.items t.subs.items t.trans.items t.pool.items };

    ghost invariant = { λ t. Kept (holding t.refs.items t.subs.items t.trans.items t.pool.items) × (NAMES < 65536) × (BYTES < 65536) };
}

impl<const NAMES: usize, const PAIRS: usize, const BYTES: usize> Tables<NAMES, PAIRS, BYTES> {
    // Tables that hold nothing.
    pub fn new() -> Self
        requires { (NAMES < 65536) × (BYTES < 65536) }
        ensures { result ≡ fresh }
    {
        Tables {
            refs: ArrayVec::new(),
            subs: ArrayVec::new(),
            trans: ArrayVec::new(),
            pool: ArrayVec::new(),
        }
    }

    // Takes everything out.
    pub fn clear(&mut self)
        ensures good { Good None self.new }
        ensures graph { graph_in self.new ≡ empty }
    {
        self.refs.clear();
        self.subs.clear();
        self.trans.clear();
        self.pool.clear();
    }

    // How much of the tables is in use.
    pub fn sizes(&self) -> Sizes
        ensures sizes { result ≡ self.now.sizes }
        ensures kept { Kept self.now }
    {
        Sizes {
            names: self.refs.len(),
            bytes: self.pool.len(),
            subgraph: self.subs.len(),
            translation: self.trans.len(),
        }
    }

    // The numbers of the names, which ascend by name.
    pub fn refs(&self) -> &[u32]
        ensures { result.now ≡ take self.now.sizes.names self.now.refs }
    {
        self.refs.as_slice()
    }

    // The bodies that the numbers of the names stand for.
    pub fn pool(&self) -> &[u8]
        ensures { result.now ≡ self.now.pool }
    {
        self.pool.as_slice()
    }

    // The numbers of the pairs of a kind, which ascend.
    pub fn pairs(&self, kind: Kind) -> &[u32]
        ensures { result.now ≡ numbers_of kind self.now }
    {
        match kind {
            Kind::Subgraph => self.subs.as_slice(),
            Kind::Translation => self.trans.as_slice(),
        }
    }

    // Looks for a name: gives its place, or the place where it would stand.
    pub fn seek(&self, name: &[u8]) -> Result<usize, usize>
        ensures bound { IsSearchInRange result self.now.sizes.names }
        ensures value { result ≡ sought compare_bytes name.now (table_names self.now) }
    {
        putting::seek(self.refs(), self.pool.as_slice(), name)
    }

    // Puts a name in, unless it is there, and gives its place. The place `near` is looked at first.
    pub fn put_name(&mut self, near: usize, name: &[u8]) -> usize
        requires { NameRoom NAMES BYTES self.old name.now }
        ensures { NamePut self.old name.now self.new result }
    {
        match seek_near(self.refs(), self.pool(), near, name) {
            Ok(place) => place,
            Err(place) => {
                let at = self.pool.len();
                insert_at(&mut self.refs, place, (at * 65536 + name.len()) as u32);
                append(&mut self.pool, name);
                renumber(self.subs.as_mut_slice(), place as u32);
                renumber(self.trans.as_mut_slice(), place as u32);
                place
            }
        }
    }

    // The first place of the last pair of a kind, or 0 where there is none: in relations that are in order the next one often begins there
    // too.
    fn last_from(&self, kind: Kind) -> usize {
        self.pairs(kind)
            .last()
            .map_or(0, |pair| *pair as usize / 65536)
    }

    // Puts a pair of a kind in with its two names, unless it is there.
    pub fn put_pair(&mut self, kind: Kind, from: &[u8], to: &[u8])
        requires { PairRoom NAMES PAIRS BYTES self.old from.now to.now }
        ensures { PairPut kind self.old from.now to.now self.new }
    {
        let near = self.last_from(kind);
        let first = self.put_name(near, from);
        let before = self.refs.len();
        let second = self.put_name(before, to);
        let x = moved_place(first, second, before, self.refs.len());
        let pair = (x * 65536 + second) as u32;
        match kind {
            Kind::Subgraph => put_number(&mut self.subs, pair),
            Kind::Translation => put_number(&mut self.trans, pair),
        }
    }

    // Copies a record, with its own name among the names, in the place of what the tables held.
    pub fn load(&mut self, source: &Record)
        requires { TableRoom (sizes_of source.now) NAMES PAIRS BYTES }
        ensures { Loaded source.now self.new }
    {
        let b = source.bytes();
        load_rows(&mut self.refs, Rows::entries(b));
        load_rows(&mut self.subs, Rows::pairs(b, Kind::Subgraph));
        load_rows(&mut self.trans, Rows::pairs(b, Kind::Translation));
        load_bodies(&mut self.pool, b, Sizes::of(source).bytes);
    }
}
