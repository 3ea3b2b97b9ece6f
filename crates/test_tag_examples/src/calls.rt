// Calls of the functions of tag lists: what comes out is printed beside what is stated.
use test_examples::Counts;
use text::{filled, part};

// The bytes of a tag list.
const LIST_BYTES: usize = 264452;

// A tag list, and the counts of the answers so far, which are lent.
#[derive(Drop)]
pub(crate) struct Trial<'a> {
    list: [u8; LIST_BYTES],
    counts: &'a mut Counts,
}

impl<'a> Trial<'a> {
    // A list with no tags.
    pub(crate) fn new(counts: &'a mut Counts) -> Trial<'a> {
        Trial {
            list: filled(0),
            counts,
        }
    }

    // Sets the last byte of the block.
    pub(crate) fn end_in(&mut self, x: u8) {
        self.list[LIST_BYTES - 1] = x;
    }

    // A number beside the one that is stated.
    fn number(&mut self, label: &[u8], n: u64, stated: usize) {
        self.counts.number(label, n as usize, stated);
    }

    // The number for a key that is set to a value.
    pub(crate) fn inserted(&mut self, label: &[u8], key: &[u8], value: &[u8], stated: usize) {
        let n = graph_name::graph_name_tags_insert(&mut self.list, key, value);
        self.number(label, u64::from(n), stated);
    }

    // The last number for the keys of so many numbers of two digits, which are set.
    pub(crate) fn filled(&mut self, label: &[u8], tags: usize, stated: usize) {
        let mut last = 0;
        for i in 0..tags {
            let key = [b'0' + (i / 10 % 10) as u8, b'0' + (i % 10) as u8];
            last = graph_name::graph_name_tags_insert(&mut self.list, &key, b"v");
        }
        self.number(label, u64::from(last), stated);
    }

    // The number for a record's tags that are put in.
    pub(crate) fn record_set(&mut self, label: &[u8], record: &[u8], stated: usize) {
        let n = graph_name::graph_name_tags_set_graph_name(&mut self.list, record);
        self.number(label, u64::from(n), stated);
    }

    // The value of a key that the list is to hold.
    pub(crate) fn got(&mut self, label: &[u8], key: &[u8], stated: &[u8]) {
        let mut present = 0;
        let mut start = 0;
        let mut length = 0;
        let n = graph_name::graph_name_tags_get(
            &self.list,
            key,
            &mut present,
            &mut start,
            &mut length,
        );
        match (n, present) {
            (0, 1) => {
                let value = part(&self.list, start as usize, length as usize);
                self.counts.shown(label, value, stated);
            }
            (0, _) => self.number(b"19 present ", present, 1),
            _ => self.number(b"19 refused ", u64::from(n), 0),
        }
    }

    // How many tags the list holds.
    pub(crate) fn counted(&mut self, label: &[u8], stated: usize) {
        let mut tags = 0;
        match graph_name::graph_name_tags_counts(&self.list, &mut tags) {
            0 => self.number(label, tags, stated),
            n => self.number(b"19 refused ", u64::from(n), 0),
        }
    }

    // The number for a block that is no list.
    pub(crate) fn refused(&mut self, label: &[u8], stated: usize) {
        let mut tags = 0;
        let n = graph_name::graph_name_tags_counts(&self.list, &mut tags);
        self.number(label, u64::from(n), stated);
    }
}
