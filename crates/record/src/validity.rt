// Whether a buffer is a record, from the tests of its parts; and what is wrong with it.
ghost use Rattle.std.specs.Prelude.{◌≡◌, true, ◌+◌, ◌≤◌, length};
ghost use Rattle.model.specs.Record.{max_names, max_pairs};
ghost use Rattle.model.specs.Layout.{bodies_after, decode};
ghost use Rattle.model.specs.Opening.{is_some, check_of, check_of_both};
ghost use Rattle.record.specs.Test.{counts_ok, tables_ok};

use crate::layout::{Head, head_at};
use crate::offsets::{MAX_NAMES, MAX_PAIRS, PAIR_LENGTH, RECORD_LENGTH, bodies_after, entry_at};
use crate::test::{all_used, body_end, names_ascend, pairs_ok};
use model::Fault;

// Whether the pairs of both kinds are right, the names ascend and all are used, in a buffer whose counts are within the sizes.
fn tables_ok(b: &[u8], head: Head) -> bool
    requires { (counts_ok head.names head.own head.subgraph head.translation ≡ true) × (bodies_after head.names (head.subgraph + head.translation) ≤ length b.now) }
    ensures { result ≡ tables_ok b.now head.names head.own head.subgraph head.translation }
{
    let names = head.names;
    let subgraph = entry_at(names);
    let translation = subgraph + PAIR_LENGTH * head.subgraph;
    let bodies = translation + PAIR_LENGTH * head.translation;
    if !pairs_ok(b, subgraph, head.subgraph, names) {
        return false;
    }
    if !pairs_ok(b, translation, head.translation, names) {
        return false;
    }
    if !names_ascend(b, names, bodies) {
        return false;
    }
    all_used(b, head)
}

// Whether the four counts are within the sizes, and the own place within the names.
fn counts_ok(head: Head) -> bool
    ensures { result ≡ counts_ok head.names head.own head.subgraph head.translation }
{
    head.names <= MAX_NAMES
        && head.own <= head.names
        && head.subgraph <= MAX_PAIRS
        && head.translation <= MAX_PAIRS
}

// Whether a buffer is a record.
pub fn is_record(b: &[u8]) -> bool
    ensures { result ≡ is_some (decode b.now) }
{
    if b.len() != RECORD_LENGTH {
        return false;
    }
    let head = head_at(b);
    if !counts_ok(head) {
        return false;
    }
    let Some(end) = body_end(b, head.names) else {
        return false;
    };
    if !tables_ok(b, head) {
        return false;
    }
    let bodies = bodies_after(head.names, head.subgraph + head.translation);
    text::zeros_from(b, bodies + end)
}

// What is wrong with a buffer: its length, or else its contents.
#[tactic(auto, using(crate::proofs::Opening::check_tested))]
pub fn check(b: &[u8]) -> Result<(), Fault>
    ensures { result ≡ check_of b.now }
{
    if b.len() != RECORD_LENGTH {
        return Err(Fault::WrongBuffer);
    }
    if is_record(b) {
        Ok(())
    } else {
        Err(Fault::NotARecord)
    }
}

// What is wrong with one of two buffers: the length of either, or else the contents of either.
#[tactic(auto, using(crate::proofs::Opening::checks_tested))]
pub fn check_both(b: &[u8], c: &[u8]) -> Result<(), Fault>
    ensures { result ≡ check_of_both b.now c.now }
{
    if b.len() != RECORD_LENGTH {
        return Err(Fault::WrongBuffer);
    }
    if c.len() != RECORD_LENGTH {
        return Err(Fault::WrongBuffer);
    }
    if !is_record(b) {
        return Err(Fault::NotARecord);
    }
    if is_record(c) {
        Ok(())
    } else {
        Err(Fault::NotARecord)
    }
}
