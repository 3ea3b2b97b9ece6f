// Printing what came out beside what was stated, and the two counts of that.
use model::Fault;
use test_output::{print, print_number};

// The number of docs/FORMAT.md for an answer: that of the fault, or 0.
pub fn number_of(answer: Result<(), Fault>) -> usize {
    match answer {
        Ok(()) => 0,
        Err(fault) => u32::from(fault) as usize,
    }
}

// Writes a text on one line: a tab as \t and the end of a line as \n.
pub fn print_shown(s: &[u8]) {
    for x in s {
        match *x {
            b'\t' => print(b"\\t"),
            b'\n' => print(b"\\n"),
            other => print(&[other]),
        }
    }
}

// How many answers are as stated, and how many differ.
#[derive(Clone, Copy, Debug, Default, PartialEq, Eq)]
pub struct Counts {
    pub stated: usize,
    pub differ: usize,
}

impl Counts {
    // One more answer, which is as stated or differs: ends its line, and counts it.
    pub fn judge(&mut self, stated: bool) {
        if stated {
            print(b": as stated\n");
            self.stated = self.stated.saturating_add(1);
        } else {
            print(b": differs\n");
            self.differ = self.differ.saturating_add(1);
        }
    }

    // A line of a label and a number, beside the number that is stated.
    pub fn number(&mut self, label: &[u8], n: usize, stated: usize) {
        print(label);
        print_number(n);
        self.judge(n == stated);
    }

    // A line of a label and a text, beside the text that is stated.
    pub fn shown(&mut self, label: &[u8], s: &[u8], stated: &[u8]) {
        print(label);
        print_shown(s);
        self.judge(s == stated);
    }
}
