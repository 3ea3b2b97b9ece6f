// Counts for each entry and in total: cases, mismatches, answers that are wrong on purpose, and those of them that were noticed. And how often
// each number from 0 to 29 is the result that is wanted.
use test_output::{print, print_number};
use text::filled;

// How many entries there are.
pub const ENTRIES: usize = 29;

// One more than the largest number.
const NUMBERS: usize = 30;

// Writes a number in decimal, and a text behind it.
fn print_with(n: usize, s: &[u8]) {
    print_number(n);
    print(s);
}

// The counts of one entry, or of all.
#[derive(Clone, Copy, Default)]
struct Counts {
    cases: usize,
    mismatches: usize,
    wrong: usize,
    noticed: usize,
}

impl Counts {
    // Both together.
    fn plus(self, other: Counts) -> Counts {
        Counts {
            cases: self.cases.saturating_add(other.cases),
            mismatches: self.mismatches.saturating_add(other.mismatches),
            wrong: self.wrong.saturating_add(other.wrong),
            noticed: self.noticed.saturating_add(other.noticed),
        }
    }

    // Prints them on a line behind a name.
    fn print(self, name: &[u8]) {
        print(name);
        print(b" ");
        print_with(self.cases, b" cases, ");
        print_with(self.mismatches, b" mismatches; wrong on purpose ");
        print_with(self.wrong, b", noticed ");
        print_with(self.noticed, b"\n");
    }
}

// The counts of all entries, and of the numbers.
#[derive(Drop)]
pub struct Tally {
    entries: [Counts; ENTRIES],
    total: Counts,
    results: [usize; NUMBERS],
}

impl Tally {
    // Nothing counted.
    pub fn new() -> Tally {
        Tally {
            entries: filled(Counts::default()),
            total: Counts::default(),
            results: filled(0),
        }
    }

    // Adds the counts of one call to those of its entry, if it has one, and to the total.
    fn add(&mut self, entry: Option<usize>, counts: Counts) {
        self.total = self.total.plus(counts);
        if let Some(place) = entry {
            if place < ENTRIES {
                self.entries[place] = self.entries[place].plus(counts);
            }
        }
    }

    // Prints a line of the list with its number, unless there were 20 mismatches already.
    fn print_line(&self, number: usize, line: &[u8]) {
        if self.total.mismatches < 20 {
            print(b"line ");
            print_with(number, b" is not so: ");
            print(line);
            print(b"\n");
        }
    }

    // Counts a call that is to agree.
    pub fn count_right(&mut self, entry: Option<usize>, agreed: bool, number: usize, line: &[u8]) {
        if !agreed {
            self.print_line(number, line);
        }
        self.add(
            entry,
            Counts {
                cases: 1,
                mismatches: usize::from(!agreed),
                ..Counts::default()
            },
        );
    }

    // Counts a call whose line is wrong on purpose.
    pub fn count_wrong(&mut self, entry: Option<usize>, agreed: bool) {
        self.add(
            entry,
            Counts {
                wrong: 1,
                noticed: usize::from(!agreed),
                ..Counts::default()
            },
        );
    }

    // Counts a result that is wanted.
    pub fn count_result(&mut self, wanted: u64) {
        if wanted < NUMBERS as u64 {
            let n = wanted as usize;
            self.results[n] = self.results[n].saturating_add(1);
        }
    }

    // Prints the counts of the entry at a place, behind its name.
    pub fn print_entry(&self, place: usize, name: &[u8]) {
        if let Some(counts) = self.entries.get(place) {
            counts.print(name);
        }
    }

    // Prints the counts of all calls.
    pub fn print_total(&self) {
        self.total.print(b"total");
    }

    // Prints how often each number is wanted, on a line, without those that are not.
    pub fn print_results(&self) {
        print(b"results");
        for (n, times) in self.results.iter().enumerate() {
            if 0 < *times {
                print(b" ");
                print_with(n, b":");
                print_number(*times);
            }
        }
        print(b"\n");
    }
}
