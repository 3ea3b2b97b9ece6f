// docs/FORMAT.md, example 14: 512 names fit, 513 give 12; 256 bytes fit, 257 give 11; 88 names of 256 bytes give 14. Each is read from
// header lines, and added pair by pair.
use crate::output::{Counts, number_of};
use model::Fault;
use record::empty_record;
use test_output::{put, put_text};

// So many names of one size, the labels for reading and adding them, and the number that both are stated to give.
#[derive(Clone, Copy)]
struct Names {
    read: &'static [u8],
    added: &'static [u8],
    count: usize,
    size: usize,
    stated: usize,
}

// All of example 14, and that 87 names of 256 bytes do fit.
const EXAMPLES: [Names; 6] = [
    Names {
        read: b"14 512 names read ",
        added: b"14 512 names added ",
        count: 512,
        size: 3,
        stated: 0,
    },
    Names {
        read: b"14 513 names read ",
        added: b"14 513 names added ",
        count: 513,
        size: 3,
        stated: 12,
    },
    Names {
        read: b"14 name of 256 bytes read ",
        added: b"14 name of 256 bytes added ",
        count: 1,
        size: 256,
        stated: 0,
    },
    Names {
        read: b"14 name of 257 bytes read ",
        added: b"14 name of 257 bytes added ",
        count: 1,
        size: 257,
        stated: 11,
    },
    Names {
        read: b"14 87 names of 256 bytes read ",
        added: b"14 87 names of 256 bytes added ",
        count: 87,
        size: 256,
        stated: 0,
    },
    Names {
        read: b"14 88 names of 256 bytes read ",
        added: b"14 88 names of 256 bytes added ",
        count: 88,
        size: 256,
        stated: 14,
    },
];

// Writes the decimal digit n % 10.
fn put_digit(out: &mut [u8], at: usize, n: usize) -> usize {
    put(out, at, b'0' + (n % 10) as u8)
}

// Writes the name of number i, of at least three bytes: three digits and then letters.
fn put_name(out: &mut [u8], at: usize, i: usize, size: usize) -> usize {
    let hundreds = put_digit(out, at, i / 100);
    let tens = put_digit(out, hundreds, i / 10);
    let mut p = put_digit(out, tens, i);
    for _ in 3..size {
        p = put(out, p, b'n');
    }
    p
}

impl Names {
    // Writes a line for each name: a subgraph pair of that name and the first.
    fn put_lines(self, out: &mut [u8]) -> usize {
        let mut p = 0;
        for i in 0..self.count {
            p = put_text(out, p, b"@SG\t");
            p = put_name(out, p, i, self.size);
            p = put(out, p, b'\t');
            p = put_name(out, p, 0, self.size);
            p = put(out, p, b'\n');
        }
        p
    }

    // The names read from lines.
    fn read(self) -> Result<(), Fault> {
        let mut lines = io::large_buffer();
        let n = self.put_lines(&mut lines);
        let mut record = empty_record();
        parse::from_header_lines(text::part(&lines, 0, n), &mut record).map_err(
            |refusal| refusal.fault,
        )
    }

    // Adds the pair of the name of number i and the first.
    fn add(self, record: &mut [u8], i: usize) -> Result<(), Fault> {
        let mut name = io::buffer();
        let n = put_name(&mut name, 0, i, self.size);
        let mut first = io::buffer();
        let m = put_name(&mut first, 0, 0, self.size);
        edit::add_subgraph(record, text::part(&name, 0, n), text::part(&first, 0, m))
    }

    // The names added one by one: what the last addition answers.
    fn add_all(self) -> Result<(), Fault> {
        let mut record = empty_record();
        let mut last = Ok(());
        for i in 0..self.count {
            last = self.add(&mut record, i);
        }
        last
    }
}

// Each example both ways.
pub fn run_sizes(counts: &mut Counts) {
    for names in EXAMPLES {
        counts.number(names.read, number_of(names.read()), names.stated);
        counts.number(names.added, number_of(names.add_all()), names.stated);
    }
}
