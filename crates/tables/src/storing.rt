// The tables written into a record buffer: the counts, the entries of the names, the pairs of each kind and the bodies, in their order.
ghost use Rattle.std.specs.Prelude.{◌≡◌, ◌+◌, ◌*◌, ◌≤◌, ◌<◌, length, map};
ghost use Rattle.model.specs.Bytes.{put};
ghost use Rattle.model.specs.Record.{bodies};
ghost use Rattle.model.specs.Layout.{record_length, entry_length, pair_length, entries, encode};
ghost use Rattle.record.specs.Coded.{le_pairs, meaning};
ghost use Rattle.sorted.specs.Tables.{body_in, places_of, read_out};
ghost use Rattle.tables.specs.Judging.{numbered, Storable};

use model::Kind;
use record::{Head, write_counts, write_entry, write_pair};
use sorted::{Tables, body};

// Writes the entries of the names of these numbers at `at`.
fn store_entries(buffer: &mut [u8], at: usize, refs: &[u32], pool: &[u8]) -> usize
    requires { (length refs.now < 65536) × (at + entry_length * length refs.now ≤ length buffer.old) }
    ensures { (result ≡ at + entry_length * length refs.now) × (buffer.new ≡ put buffer.old at (entries 0 (map (body_in pool.now) refs.now))) }
{
    let mut start = 0;
    let mut p = at;
    for r in refs {
        let name = body(pool, *r);
        p = write_entry(buffer, p, start, name);
        start += name.len();
    }
    p
}

// Writes the pairs of these numbers at `at`.
fn store_pairs(buffer: &mut [u8], at: usize, pairs: &[u32]) -> usize
    requires { at + pair_length * length pairs.now ≤ length buffer.old }
    ensures { (result ≡ at + pair_length * length pairs.now) × (buffer.new ≡ put buffer.old at (le_pairs (map places_of pairs.now))) }
{
    let mut p = at;
    for pair in pairs {
        let x = *pair as usize;
        p = write_pair(buffer, p, x / 65536, x % 65536);
    }
    p
}

// Writes the bodies of the names of these numbers at `at`.
fn store_bodies(buffer: &mut [u8], at: usize, refs: &[u32], pool: &[u8]) -> usize
    requires { at + length (bodies (map (body_in pool.now) refs.now)) ≤ length buffer.old }
    ensures { (result ≡ at + length (bodies (map (body_in pool.now) refs.now))) × (buffer.new ≡ put buffer.old at (bodies (map (body_in pool.now) refs.now))) }
{
    let mut p = at;
    for r in refs {
        p = text::copy(buffer, p, body(pool, *r));
    }
    p
}

// The number of an own name's place: one more, or 0 for none.
fn numbered(own: Option<usize>) -> usize
    requires { numbered own < 65536 }
    ensures { result ≡ numbered own }
{
    own.map_or(0, |place| place + 1)
}

// Writes the record of the tables, with the own name at this place, if there is one; and zeros behind it.
pub fn store<const NAMES: usize, const PAIRS: usize, const BYTES: usize>(
    tables: &Tables<NAMES, PAIRS, BYTES>,
    own: Option<usize>,
    buffer: &mut [u8],
)
    requires { Storable tables.now (numbered own) × (length buffer.old ≡ record_length) }
    ensures { buffer.new ≡ encode (meaning (read_out tables.now (numbered own))) }
{
    let sizes = tables.sizes();
    let refs = tables.refs();
    let pool = tables.pool();
    let head = Head {
        names: sizes.names,
        own: numbered(own),
        subgraph: sizes.subgraph,
        translation: sizes.translation,
    };
    let entries = write_counts(buffer, head);
    let subgraph = store_entries(buffer, entries, refs, pool);
    let translation = store_pairs(buffer, subgraph, tables.pairs(Kind::Subgraph));
    let bodies = store_pairs(buffer, translation, tables.pairs(Kind::Translation));
    let end = store_bodies(buffer, bodies, refs, pool);
    buffer[end..].fill(0);
}
