// A reading: pairs are put into the working tables, the own name is kept apart, and the sizes are judged on what stands then.
ghost use Rattle.std.specs.Prelude.{◌≡◌, length, IfOk, None};
ghost use Rattle.std.specs.Option.{option_copied};
ghost use Rattle.model.specs.Record.{empty, with_name, with_pair, judge};
ghost use Rattle.model.specs.Layout.{record_length, encode};
ghost use Rattle.model.specs.Opening.{number_of};
ghost use Rattle.model.specs.Reading.{judged};
ghost use Rattle.fields.specs.Fields.{apply};
ghost use Rattle.fields.specs.Contents.{meaning_of, PlacesIn};
ghost use Rattle.sorted.specs.Loading.{sizes_of, owned};
ghost use Rattle.intake.specs.State.{state_of, taken_of};

use crate::state::State;
use arrayvec::ArrayVec;
use fields::Content;
use model::{Fault, Kind};
use record::{MAX_BODIES_BYTES, MAX_NAME_BYTES, MAX_NAMES, MAX_PAIRS};
use sorted::{Sizes, Tables, append};
use std::marker::Model;

// Room for the names of a full record, and of a field more.
const NAME_ROOM: usize = MAX_NAMES + 2;

// Room for the pairs of one kind of a full record, and of a field more.
const PAIR_ROOM: usize = MAX_PAIRS + 1;

// Room for the bodies of the names of a full record, and of a field more.
const POOL_ROOM: usize = MAX_BODIES_BYTES + 2 * MAX_NAME_BYTES;

// What a reading has so far: the tables with all pairs, and the own name, if there is one, which is copied from the text.
#[derive(Clone, Drop)]
pub struct Reading {
    tables: Tables<NAME_ROOM, PAIR_ROOM, POOL_ROOM>,
    own: Option<ArrayVec<u8, MAX_NAME_BYTES>>,
}

// Clauses see the graph name so far; the tables have no names but those of its pairs.
impl Model for Reading {
    ghost use Rattle.std.specs.Prelude.{None};
    ghost use Rattle.model.specs.Record.{GraphName};
    ghost use Rattle.intake.specs.Own.{own_of};
    ghost use Rattle.sorted.specs.Tables.{graph_in};
    ghost use Rattle.sorted.specs.Loading.{owned, Good};

    ghost Value = { GraphName };

    ghost view = { λ s. owned (own_of s.own) (graph_in s.tables) };

    ghost invariant = { λ s. Good None s.tables };
}

impl Reading {
    // A reading in which nothing is taken yet.
    pub fn new() -> Reading
        ensures { result ≡ empty }
    {
        Reading {
            tables: Tables::new(),
            own: None,
        }
    }

    // How much of the tables is in use, by the names of all pairs; the own name is kept beside them.
    #[tactic(auto, using(crate::proofs::Progress::sizes_in_use))]
    pub fn sizes(&self) -> Sizes
        ensures { result ≡ sizes_of (owned None self.now) }
    {
        self.tables.sizes()
    }

    // The own name so far, if there is one.
    pub fn own_name(&self) -> Option<&[u8]>
        ensures { option_copied result ≡ self.now.name }
    {
        match &self.own {
            None => None,
            Some(own) => Some(own.as_slice()),
        }
    }

    // How much is in use, to be copied: the sizes of the tables, and the length of the own name, if there is one.
    pub fn state(&self) -> State
        ensures { result ≡ state_of self.now }
    {
        State {
            sizes: self.sizes(),
            own: self.own_name().map(|name| name.len()),
        }
    }

    // What is over its limit of the graph name so far.
    fn judge(&self) -> Result<(), Fault>
        ensures { number_of result ≡ judge self.now }
    {
        let own = self.own_name();
        tables::size_fault(&self.tables, own)
    }

    // Takes an own name, in the place of the one before.
    #[tactic(auto, using(crate::proofs::Progress::long_name))]
    fn take_name(&mut self, name: &[u8]) -> Result<(), Fault>
        ensures taken { taken_of result self.new ≡ judged (with_name name.now self.old) }
        ensures sizes { IfOk result (λ _. judge self.new ≡ 0) }
    {
        if MAX_NAME_BYTES < name.len() {
            return Err(Fault::LongName);
        }
        let mut own = ArrayVec::new();
        append(&mut own, name);
        self.own = Some(own);
        self.judge()
    }

    // Takes a pair of a kind.
    #[tactic(auto, using(crate::proofs::Progress::pairs))]
    fn take_pair(&mut self, kind: Kind, from: &[u8], to: &[u8]) -> Result<(), Fault>
        requires { judge self.old ≡ 0 }
        ensures taken { taken_of result self.new ≡ judged (with_pair kind (record { from = from.now; to = to.now }) self.old) }
        ensures sizes { IfOk result (λ _. judge self.new ≡ 0) }
    {
        if MAX_NAME_BYTES < from.len() || MAX_NAME_BYTES < to.len() {
            return Err(Fault::LongName);
        }
        self.tables.put_pair(kind, from, to);
        self.judge()
    }

    // Takes a field with what it says. The first fault ends the reading.
    pub fn take_field(&mut self, f: &[u8], content: Result<Content, Fault>) -> Result<(), Fault>
        requires sizes { judge self.old ≡ 0 }
        requires places { PlacesIn f.now content }
        ensures taken { taken_of result self.new ≡ apply self.old (meaning_of f.now content) }
        ensures sizes { IfOk result (λ _. judge self.new ≡ 0) }
    {
        match content? {
            Content::Nothing => Ok(()),
            Content::Name(start) => self.take_name(&f[start..]),
            Content::Relation {
                kind,
                start,
                separator,
            } => self.take_pair(kind, &f[start..separator], &f[separator + 1..]),
        }
    }

    // Ends the reading: writes the record, with the own name put into the tables, and begins anew.
    pub fn store(&mut self, buffer: &mut [u8])
        requires sizes { judge self.old ≡ 0 }
        requires room { length buffer.old ≡ record_length }
        ensures stored { buffer.new ≡ encode self.old }
        ensures anew { self.new ≡ empty }
    {
        match &self.own {
            None => tables::store(&self.tables, None, buffer),
            Some(name) => {
                let place = self.tables.put_name(0, name.as_slice());
                tables::store(&self.tables, Some(place), buffer);
            }
        }
        self.tables.clear();
        self.own = None;
    }
}
