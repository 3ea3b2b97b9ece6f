// How two graphs are related: the search, the exchange of the sides, and the text that is written if it fits.
ghost use Rattle.std.specs.Prelude.{◌≡◌, length, Ok};
ghost use Rattle.std.specs.Option.{option_copied};
ghost use Rattle.model.specs.Describe.{describe_none};
ghost use Rattle.model.specs.Written.{relationship_written, size_written, output_with};
ghost use Rattle.path_bytes.specs.Reading.{PathIn};
ghost use Rattle.describe.specs.Direction.{Answers, Finds, text_written, path_text};

use crate::descs::Descs;
use crate::direction::{Direction, PATH_ROOM, find_path};
use crate::steps::after_last_empty;
use crate::texts::{append_no_path, append_path};
use export::write_text;
use model::Fault;
use path_bytes::{Steps, path_start};
use record::own_name;
use text::filled;

// Writes the text of the path whose bytes are given.
fn describe_path(path: &[u8], descs: Descs, out: &mut [u8]) -> Result<usize, Fault>
    requires { PathIn path.now }
    ensures { Answers (text_written (path_text path.now descs.entry.from.now descs.entry.to.now) descs.entry.from.now descs.entry.to.now (length out.old)) out.old result out.new }
{
    if !descs.are_short() {
        return Err(Fault::LongDesc);
    }
    let steps = after_last_empty(Steps::of(path));
    let start = path_start(path);
    write_text(out, |out| append_path(out, steps, start, descs))
}

// Writes the text of two graphs with no path between them, which have these own names, or none.
fn describe_no_path(
    own: Option<&[u8]>,
    other: Option<&[u8]>,
    descs: Descs,
    out: &mut [u8],
) -> Result<usize, Fault>
    ensures { Answers (text_written (describe_none (option_copied own.entry) (option_copied other.entry) descs.entry.from.now descs.entry.to.now) descs.entry.from.now descs.entry.to.now (length out.old)) out.old result out.new }
{
    if !descs.are_short() {
        return Err(Fault::LongDesc);
    }
    write_text(out, |out| append_no_path(out, own, other, descs))
}

// Writes what was found, the sides exchanged unless the path leads from the first graph to the second.
fn describe_found(
    found: Direction,
    path: &[u8],
    b: &[u8],
    c: &[u8],
    descs: Descs,
    out: &mut [u8],
) -> Result<usize, Fault>
    requires { Finds b.now c.now (Ok found) path.now }
    ensures { Answers (relationship_written b.now c.now descs.entry.from.now descs.entry.to.now (length out.old)) out.old result out.new }
{
    match found {
        Direction::Forward => describe_path(path, descs, out),
        Direction::Backward => describe_path(path, descs.swapped(), out),
        Direction::Neither => {
            let (own, other) = (own_name(c), own_name(b));
            describe_no_path(own, other, descs.swapped(), out)
        }
    }
}

// Describes how the graph of b is related to that of c; says how many bytes were written.
pub fn describe_relationship<'a>(
    b: &'a [u8],
    c: &'a [u8],
    self_desc: &[u8],
    other_desc: &[u8],
    out: &mut [u8],
) -> Result<usize, Fault>
    ensures size { result ≡ size_written (relationship_written b.now c.now self_desc.now other_desc.now (length out.old)) }
    ensures output { out.new ≡ output_with (relationship_written b.now c.now self_desc.now other_desc.now (length out.old)) out.old }
{
    let mut path: [u8; PATH_ROOM] = filled(0);
    let found = find_path(b, c, &mut path)?;
    let descs = Descs {
        from: self_desc,
        to: other_desc,
    };
    describe_found(found, &path, b, c, descs, out)
}
