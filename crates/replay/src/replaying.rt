// Takes the lines of the list one by one: sets what a line sets, and makes the call of a line with an entry's name.
use crate::entries::{Entry, NAMED};
use test_list::{Holder, Holders, Numbers, Tally, cut};
use test_records::Look;

// The byte strings that are set, and what is counted so far.
#[derive(Drop)]
pub(crate) struct Replay {
    holders: Holders,
    tally: Tally,
}

// The place of an entry among all of them, and the entry, by its name.
fn named(word: &[u8]) -> Option<(usize, Entry)> {
    NAMED
        .iter()
        .enumerate()
        .find(|(_, (name, _))| *name == word)
        .map(|(place, (_, entry))| (place, *entry))
}

impl Replay {
    // Nothing set, and nothing counted.
    pub(crate) fn new() -> Replay {
        Replay {
            holders: Holders::new(),
            tally: Tally::new(),
        }
    }

    // Whether the entry that a word names answers with the numbers of a line; none does not.
    fn agrees(&self, entry: Option<(usize, Entry)>, n: Numbers) -> bool {
        entry.is_some_and(|(_, entry)| entry.agrees(&self.holders, n))
    }

    // Makes the call of a line that begins with an entry's name. A line with another word is a mismatch. The result that the line wants is
    // counted; not that of the strict reading, which is no refusal's number.
    fn call(&mut self, number: usize, line: &[u8]) {
        let (word, words) = cut(line, b' ');
        let n = Numbers { words };
        let entry = named(word);
        let agreed = self.agrees(entry, n);
        self.tally
            .count_right(entry.map(|(place, _)| place), agreed, number, line);
        if !matches!(entry, Some((_, Entry::Look(Look::CheckStrict)))) {
            self.tally.count_result(n.at(0));
        }
    }

    // Makes the call of a line that is wrong on purpose.
    fn call_wrong(&mut self, line: &[u8]) {
        let (word, words) = cut(line, b' ');
        let entry = named(word);
        let agreed = self.agrees(entry, Numbers { words });
        self.tally
            .count_wrong(entry.map(|(place, _)| place), agreed);
    }

    // Takes one line: an empty one, or one that begins with `#`, says nothing, and one that begins with `!` is wrong on purpose.
    pub(crate) fn take(&mut self, number: usize, line: &[u8]) {
        let (word, rest) = cut(line, b' ');
        match line {
            [] | [b'#', ..] => (),
            [b'!', wrong @ ..] => self.call_wrong(wrong),
            _ => match Holder::named(word) {
                Some(holder) => self.holders.set(holder, rest),
                None => self.call(number, line),
            },
        }
    }

    // Prints the counts.
    pub(crate) fn print(&self) {
        for (place, (name, _)) in NAMED.iter().enumerate() {
            self.tally.print_entry(place, name);
        }
        self.tally.print_total();
        self.tally.print_results();
    }
}
