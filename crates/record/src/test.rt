// The test of a buffer: whether it is a record, part by part.
ghost use Rattle.std.specs.Prelude.{◌≡◌, ◌&&◌, ◌+◌, ◌*◌, ◌≤◌, length, drop, ltb};
ghost use Rattle.model.specs.Bytes.{compare_bytes};
ghost use Rattle.model.specs.Record.{ascends, max_names};
ghost use Rattle.model.specs.Layout.{record_length, counts_length, pair_length, entry_at, bodies_after};
ghost use Rattle.record.specs.Rows.{rows_of};
ghost use Rattle.record.specs.Test.{entries_at, pairs_at, Under, body_end, end_within, cut, is_less, pair_less, pairs_ok, is_used, every, marks, mark_own, is_one};

use crate::layout::Head;
use crate::offsets::{
    COUNTS_LENGTH, MAX_BODIES_BYTES, MAX_NAME_BYTES, MAX_NAMES, PAIR_LENGTH, entry_at,
};
use crate::rows::Rows;
use text::filled;

// Where the bodies of n names end, counted from the first, if the entries leave no gap, no name is long and all are within the most bytes.
pub(crate) fn body_end(b: &[u8], n: usize) -> Option<usize>
    requires { (n ≤ max_names) × (entry_at n ≤ length b.now) }
    ensures { result ≡ end_within (body_end 0 (entries_at n (drop counts_length b.now))) }
{
    let mut at = 0;
    for (start, size) in Rows::new(b, COUNTS_LENGTH, n) {
        if start != at {
            return None;
        }
        if MAX_NAME_BYTES < size {
            return None;
        }
        at += size;
    }
    if MAX_BODIES_BYTES < at {
        return None;
    }
    Some(at)
}

// Whether both places of a pair are below n.
fn is_below(pair: (usize, usize), n: usize) -> bool
    ensures { result ≡ (ltb pair.0 n && ltb pair.1 n) }
{
    let (a, b) = pair;
    a < n && b < n
}

// Whether a pair comes before another.
fn pair_less(pair: (usize, usize), next: (usize, usize)) -> bool
    ensures { result ≡ pair_less pair.0 pair.1 next.0 next.1 }
{
    pair < next
}

// Whether the `count` pairs from `at` on are of places below n, and ascend. Each is looked at once, with the next: `all` and then `is_sorted_by`
// would go over them twice. So are names below, and the tags of a list.
pub(crate) fn pairs_ok(b: &[u8], at: usize, count: usize, n: usize) -> bool
    requires { at + pair_length * count ≤ length b.now }
    ensures { result ≡ pairs_ok n (pairs_at count (drop at b.now)) }
{
    let mut rest = Rows::new(b, at, count);
    let Some(mut pair) = rest.next() else {
        return true;
    };
    for next in rest {
        if !is_below(pair, n) {
            return false;
        }
        if !pair_less(pair, next) {
            return false;
        }
        pair = next;
    }
    is_below(pair, n)
}

// Whether one byte string comes before another.
fn is_less(a: &[u8], b: &[u8]) -> bool
    ensures { result ≡ is_less (compare_bytes a.now b.now) }
{
    text::compare(a, b).is_lt()
}

// Whether the n names whose bodies start at `bodies` ascend.
pub(crate) fn names_ascend(b: &[u8], n: usize, bodies: usize) -> bool
    requires { (n ≤ max_names) × (entry_at n ≤ length b.now) × (bodies ≤ record_length) }
    ensures { result ≡ ascends compare_bytes (cut (entries_at n (drop counts_length b.now)) (drop bodies b.now)) }
{
    let mut rest = Rows::new(b, COUNTS_LENGTH, n);
    let Some((_, mut size)) = rest.next() else {
        return true;
    };
    let mut at = bodies;
    for (_, next) in rest {
        if !is_less(text::part(b, at, size), text::part(b, at + size, next)) {
            return false;
        }
        at += size;
        size = next;
    }
    true
}

// Marks both places of each pair.
fn mark_pairs<'a>(used: &mut [u8], pairs: Rows<'a>)
    requires { Under (length used.old) (rows_of pairs) }
    ensures { used.new ≡ marks (rows_of pairs.entry) used.old }
{
    for (from, to) in pairs {
        used[from] = 1;
        used[to] = 1;
    }
}

// Whether each of the first n bytes is 1.
fn all_marked(used: &[u8], n: usize) -> bool
    requires { n ≤ length used.now }
    ensures { result ≡ every (is_one used.now) n }
{
    used[..n].iter().all(|&mark| mark == 1)
}

// Marks the own place, if there is one.
fn mark_own(used: &mut [u8], own: usize)
    requires { own ≤ length used.old }
    ensures { used.new ≡ mark_own own used.old }
{
    if 0 < own {
        used[own - 1] = 1;
    }
}

// Whether every place of a name is used: it is the own place, whose number is one more, or stands in one of the pairs.
pub(crate) fn all_used(b: &[u8], head: Head) -> bool
    requires sizes { (head.names ≤ max_names) × (head.own ≤ head.names) × (bodies_after head.names (head.subgraph + head.translation) ≤ length b.now) }
    requires under { Under head.names (pairs_at head.subgraph (drop (entry_at head.names) b.now)) × Under head.names (pairs_at head.translation (drop (entry_at head.names + pair_length * head.subgraph) b.now)) }
    ensures { result ≡ every (is_used head.own (pairs_at head.subgraph (drop (entry_at head.names) b.now)) (pairs_at head.translation (drop (entry_at head.names + pair_length * head.subgraph) b.now))) head.names }
{
    let subgraph = entry_at(head.names);
    let translation = subgraph + PAIR_LENGTH * head.subgraph;
    let mut used: [u8; MAX_NAMES] = filled(0);
    mark_own(&mut used, head.own);
    mark_pairs(&mut used, Rows::new(b, subgraph, head.subgraph));
    mark_pairs(&mut used, Rows::new(b, translation, head.translation));
    all_marked(&used, head.names)
}
