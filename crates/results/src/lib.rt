// Answers handed out: what a layer below answers as the numbers behind an exported function's pointers, and the number that it returns.
//
// A number behind a `&mut u64` is written on 0 only, but for the four of a reading, which are always written. There is a function for each
// number of pointers, since C gives each of them by itself; a closure that wrote them could not be known to leave them on a refusal.
#![tactic(auto)]

mod questions;
mod readings;
mod records;
mod tags;
mod texts;

ghost use Rattle.std.specs.Prelude.{◌≡◌};
ghost use Rattle.model.specs.Opening.{number_of};

use model::Fault;
pub use questions::answer_out;
pub use readings::refusal_out;
pub use records::{counts_out, pair_out, part_out};
pub use tags::{removal_out, tag_parts_out};
pub use texts::{count_out, tags_out};

// The number of an answer: 0, or that of its fault.
pub fn number_of(given: Result<(), Fault>) -> u32
    ensures { result ≡ number_of given }
{
    match given {
        Ok(()) => 0,
        Err(fault) => fault.into(),
    }
}
