// A record copied into the tables: the entries of its names, the pairs of each kind and the bodies, in their order.
ghost use Rattle.std.specs.Prelude.{◌≡◌, true, ◌≤◌, ◌<◌, length, map};
ghost use Rattle.model.specs.Record.{bodies};
ghost use Rattle.model.specs.Layout.{name_count, decode};
ghost use Rattle.model.specs.Opening.{is_some};
ghost use Rattle.record.specs.Rows.{rows_of};
ghost use Rattle.record.specs.Test.{Under, names_of};
ghost use Rattle.sorted.specs.Tables.{places_of};
ghost use Rattle.sorted.specs.Loading.{sizes_of, Limited};

use crate::appending::append;
use crate::putting::Sizes;
use arrayvec::ArrayVec;
use record::{Record, Rows, bodies_at, body_length, body_start, head_at};
use text::part;

// Takes rows of two numbers, each as one number, in the place of what was there.
pub(crate) fn load_rows<'a, const N: usize>(numbers: &mut ArrayVec<u32, N>, rows: Rows<'a>)
    requires { (length (rows_of rows) ≤ N) × Under 65536 (rows_of rows) }
    ensures { map places_of numbers.new.items ≡ rows_of rows.entry }
{
    numbers.clear();
    for (a, b) in rows {
        numbers.push((a * 65536 + b) as u32);
    }
}

// Takes the bodies, which are this long together, in the place of what was there.
#[tactic(auto, using(crate::proofs::Records::held))]
pub(crate) fn load_bodies<const N: usize>(pool: &mut ArrayVec<u8, N>, b: &[u8], bytes: usize)
    requires { (is_some (decode b.now) ≡ true) × (bytes ≡ length (bodies (names_of b.now))) × (bytes ≤ N) }
    ensures { pool.new.items ≡ bodies (names_of b.now) }
{
    pool.clear();
    append(pool, part(b, bodies_at(b), bytes));
}

// How long the bodies of the n names of a record are together.
#[tactic(auto, using(crate::proofs::Records::held))]
fn bodies_length(b: &[u8], n: usize) -> usize
    requires { (is_some (decode b.now) ≡ true) × (n ≡ name_count b.now) }
    ensures { result ≡ length (bodies (names_of b.now)) }
{
    if n == 0 {
        return 0;
    }
    body_start(b, n - 1) + body_length(b, n - 1)
}

impl Sizes {
    // How much of the tables a record takes, which is within the sizes.
    #[tactic(auto, using(crate::proofs::Records::held))]
    pub fn of(source: &Record) -> Sizes
        ensures sizes { result ≡ sizes_of source.now }
        ensures limited { Limited result }
    {
        let b = source.bytes();
        let h = head_at(b);
        Sizes {
            names: h.names,
            bytes: bodies_length(b, h.names),
            subgraph: h.subgraph,
            translation: h.translation,
        }
    }
}
