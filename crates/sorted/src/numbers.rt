// Ascending numbers: putting one in; and renumbering pairs.
ghost use Rattle.std.specs.Prelude.{◌≡◌, map, ◌/◌, ◌%◌, ◌<◌};
ghost use Rattle.arrayvec.specs.ArrayVec.{array_vec_len};
ghost use Rattle.model.specs.Bytes.{compare_numbers};
ghost use Rattle.model.specs.Record.{insert};
ghost use Rattle.model.specs.Statements.{Ascending};
ghost use Rattle.record.specs.Test.{Under};
ghost use Rattle.sorted.specs.Sorted.{renumbered};
ghost use Rattle.sorted.specs.Tables.{places_of};

use crate::inserting::insert_at;
use arrayvec::ArrayVec;

// The two places of a pair after a name came in at place p: each goes up by one from there on.
#[tactic(auto, unfolding(crate::specs::Sorted::renumbered))]
fn renumbered(p: u32, pair: u32) -> u32
    requires { (pair / 65536 < 65535) × (pair % 65536 < 65535) }
    ensures { result ≡ renumbered p pair }
{
    pair + 65536 * u32::from(p <= pair / 65536) + u32::from(p <= pair % 65536)
}

// The places of pairs after a name came in at place p.
pub(crate) fn renumber(pairs: &mut [u32], p: u32)
    requires { Under 65535 (map places_of pairs.old) }
    ensures { pairs.new ≡ map (renumbered p) pairs.old }
{
    for pair in pairs {
        *pair = renumbered(p, *pair);
    }
}

// Puts a number among these, which ascend, unless it is there.
pub(crate) fn put_number<const N: usize>(a: &mut ArrayVec<u32, N>, v: u32)
    requires { (array_vec_len a.old < N) × Ascending compare_numbers a.old.items }
    ensures { a.new.items ≡ insert compare_numbers v a.old.items }
{
    if let Err(p) = a.binary_search(&v) {
        insert_at(a, p, v);
    }
}
