// What a record counts, and where things stand in it: the bodies, a name, the pairs of a kind. A rule of the project has the
// reader stand above functions on slice and numbers, so each asks that what it reads lies within the slice.
ghost use Rattle.std.specs.Prelude.{IfSome, ◌≡◌, ◌+◌, ◌*◌, ◌≤◌, ◌<◌, length};
ghost use Rattle.model.specs.declared.Kind.TheVariants.{Subgraph, Translation};
ghost use Rattle.model.specs.Layout.{counts_length, entry_length, pair_length, entry_at, name_count, own_number, pair_count, body_start, body_length, table_at, bodies_at, from_place, to_place, name_at, shown};
ghost use Rattle.model.specs.Opening.{is_some};
ghost use Rattle.std.specs.Option.{option_copied};
ghost use Rattle.record.specs.Reader.{place_numbered, counted_pairs, IsCount, IsHead, IsPart};

use crate::offsets::{PAIR_LENGTH, bodies_after, entry_at};
use model::{Kind, Part};
use text::read16;

// The numbers that a record begins with: how many names; the own name, by its place counted from 1, or 0 for none; how many pairs of each
// kind.
#[derive(Clone, Copy, Debug, PartialEq, Eq)]
pub struct Head {
    pub names: usize,
    pub own: usize,
    pub subgraph: usize,
    pub translation: usize,
}

impl Head {
    // How many pairs of a kind there are: two fields, since the definitions name each.
    pub fn pairs(self, kind: Kind) -> usize
        ensures { result ≡ counted_pairs self kind }
    {
        match kind {
            Kind::Subgraph => self.subgraph,
            Kind::Translation => self.translation,
        }
    }
}

// Where the body at place i begins, counted from the first body.
pub fn body_start(b: &[u8], i: usize) -> usize
    requires { entry_at i + entry_length ≤ length b.now }
    ensures { (result ≡ body_start b.now i) × (result < 65536) }
{
    read16(b, entry_at(i))
}

// How long the body at place i is.
pub fn body_length(b: &[u8], i: usize) -> usize
    requires { entry_at i + entry_length ≤ length b.now }
    ensures { (result ≡ body_length b.now i) × (result < 65536) }
{
    read16(b, entry_at(i) + 2)
}

// The counts that a buffer begins with.
pub fn head_at(b: &[u8]) -> Head
    requires { counts_length ≤ length b.now }
    ensures { IsHead b.now result }
{
    Head {
        names: read16(b, 0),
        own: read16(b, 2),
        subgraph: read16(b, 4),
        translation: read16(b, 6),
    }
}

// Where the body of the name at place i stands, in a buffer that counts so.
pub fn part_of(b: &[u8], head: Head, i: usize) -> Part
    requires counted { IsCount (name_count b.now) head.names × IsCount (pair_count Subgraph b.now) head.subgraph × IsCount (pair_count Translation b.now) head.translation }
    requires entry { entry_at i + entry_length ≤ length b.now }
    ensures { IsPart b.now i result }
{
    let bodies = bodies_after(head.names, head.subgraph + head.translation);
    Part {
        start: bodies + body_start(b, i),
        size: body_length(b, i),
    }
}

// Where the bodies of the names begin.
pub fn bodies_at(b: &[u8]) -> usize
    requires { counts_length ≤ length b.now }
    ensures { (result ≡ bodies_at b.now) × (result < 4294967296) }
{
    let pairs = pair_count(b, Kind::Subgraph) + pair_count(b, Kind::Translation);
    bodies_after(name_count(b), pairs)
}

// How many names there are.
pub fn name_count(b: &[u8]) -> usize
    requires { counts_length ≤ length b.now }
    ensures { (result ≡ name_count b.now) × (result < 65536) }
{
    read16(b, 0)
}

// The own name's place, counted from 0, if there is one: there is where the buffer shows a name.
#[tactic(auto, using(crate::proofs::Own::none_shown, crate::proofs::Own::one_shown))]
pub fn own_place(b: &[u8]) -> Option<usize>
    requires { counts_length ≤ length b.now }
    ensures value { result ≡ place_numbered (own_number b.now) }
    ensures small { IfSome result (λ place. place < 65535) }
    ensures named { is_some result ≡ is_some (shown b.now).name }
{
    match read16(b, 2) {
        0 => None,
        own => Some(own - 1),
    }
}

// The name at place i, with the bodies from byte `bodies` on.
pub fn name_in(b: &[u8], bodies: usize, i: usize) -> &[u8]
    requires { (bodies ≡ bodies_at b.now) × (bodies < 4294967296) × (entry_at i + entry_length ≤ length b.now) }
    ensures { result.now ≡ name_at b.now i }
{
    text::part(b, bodies + body_start(b, i), body_length(b, i))
}

// The name at place i.
pub fn name_at(b: &[u8], i: usize) -> &[u8]
    requires { entry_at i + entry_length ≤ length b.now }
    ensures { result.now ≡ name_at b.now i }
{
    let part = part_of(b, head_at(b), i);
    text::part(b, part.start, part.size)
}

// The own name, if there is one.
#[tactic(auto, using(crate::proofs::Own::own_shown))]
pub fn own_name(b: &[u8]) -> Option<&[u8]>
    requires { entry_at (own_number b.now) ≤ length b.now }
    ensures { option_copied result ≡ (shown b.now).name }
{
    let place = own_place(b)?;
    Some(name_at(b, place))
}

// How many pairs of a kind there are.
pub fn pair_count(b: &[u8], kind: Kind) -> usize
    requires { counts_length ≤ length b.now }
    ensures { (result ≡ pair_count kind b.now) × (result < 65536) }
{
    match kind {
        Kind::Subgraph => read16(b, 4),
        Kind::Translation => read16(b, 6),
    }
}

// Where the pairs of a kind begin.
pub fn table_at(b: &[u8], kind: Kind) -> usize
    requires { counts_length ≤ length b.now }
    ensures { (result ≡ table_at kind b.now) × (result < 4294967296) }
{
    let first = entry_at(name_count(b));
    match kind {
        Kind::Subgraph => first,
        Kind::Translation => first + PAIR_LENGTH * pair_count(b, Kind::Subgraph),
    }
}

// The byte at which the pair of a kind at place i stands.
pub fn pair_at(b: &[u8], kind: Kind, i: usize) -> usize
    requires { (counts_length ≤ length b.now) × (i < 65536) }
    ensures { result ≡ table_at kind b.now + pair_length * i }
{
    table_at(b, kind) + PAIR_LENGTH * i
}

// The place of the first name of the pair that stands at byte `at`.
pub fn pair_from(b: &[u8], at: usize) -> usize
    requires { at + pair_length ≤ length b.now }
    ensures { (result ≡ from_place b.now at) × (result < 65536) }
{
    read16(b, at)
}

// The place of its second name.
pub fn pair_to(b: &[u8], at: usize) -> usize
    requires { at + pair_length ≤ length b.now }
    ensures { (result ≡ to_place b.now at) × (result < 65536) }
{
    read16(b, at + 2)
}
