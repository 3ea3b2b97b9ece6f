// The parts of a record written: the counts, the entry of a name, a pair. `layout` has where they are read.
ghost use Rattle.std.specs.Prelude.{◌≡◌, [], ◌∷◌, ◌+◌, ◌≤◌, length};
ghost use Rattle.model.specs.Bytes.{put};
ghost use Rattle.model.specs.Layout.{counts_length, entry_length, pair_length};
ghost use Rattle.record.specs.Coded.{le_pairs, counts_of, entry_of};

use crate::layout::Head;
use text::write16;

// Writes the four counts, and gives the place behind them.
pub fn write_counts(buffer: &mut [u8], head: Head) -> usize
    requires { counts_length ≤ length buffer.old }
    ensures { (result ≡ counts_length) × (buffer.new ≡ put buffer.old 0 (counts_of head.names head.own head.subgraph head.translation)) }
{
    let a = write16(buffer, 0, head.names);
    let b = write16(buffer, a, head.own);
    let c = write16(buffer, b, head.subgraph);
    write16(buffer, c, head.translation)
}

// Writes the entry of a name whose body begins at `start`, counted from the first body, and gives the place behind it.
pub fn write_entry(buffer: &mut [u8], at: usize, start: usize, name: &[u8]) -> usize
    requires { at + entry_length ≤ length buffer.old }
    ensures { (result ≡ at + entry_length) × (buffer.new ≡ put buffer.old at (entry_of start name.now)) }
{
    let p = write16(buffer, at, start);
    write16(buffer, p, name.len())
}

// Writes the two places of a pair at `at`, and gives the place behind them.
pub fn write_pair(buffer: &mut [u8], at: usize, from: usize, to: usize) -> usize
    requires { at + pair_length ≤ length buffer.old }
    ensures { (result ≡ at + pair_length) × (buffer.new ≡ put buffer.old at (le_pairs ((from, to) ∷ []))) }
{
    let p = write16(buffer, at, from);
    write16(buffer, p, to)
}
