// Replays the fixed list of the oracle's answers, which stands on standard input: makes each of its calls, compares what comes out, and
// prints the lines that are not so and the counts. The list says how it was made and what its lines mean.
#![tactic(auto)]

mod entries;
mod replaying;

use replaying::Replay;
use text::filled;

// The descriptor of standard input.
const STDIN: i32 = 0;

// The room for the list.
const LIST_BYTES: usize = 524288;

// Replays a list line by line, and prints the counts.
fn replay(list: &[u8]) {
    let mut replay = Replay::new();
    for (number, line) in list.split(|x| *x == b'\n').enumerate() {
        replay.take(number + 1, line);
    }
    replay.print();
}

fn main() {
    let mut list: [u8; LIST_BYTES] = filled(0);
    let n = io::read_full(STDIN, &mut list);
    replay(&list[..n]);
}
