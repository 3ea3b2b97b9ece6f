// The limits of a tag list: of its tags, its keys and its values; keys with capitals; and a record's tags at the limit.
use crate::calls::Trial;
use record::empty_record;
use test_examples::Counts;
use text::filled;

// A byte more than a value may have.
const LONG_VALUE: usize = 8193;

// 32 tags, a key more, and one that is held.
pub(crate) fn tags_limit(counts: &mut Counts) {
    let mut trial = Trial::new(counts);
    trial.filled(b"19 32 tags set ", 32, 0);
    trial.inserted(b"19 33rd key set ", b"other", b"v", 21);
    trial.inserted(b"19 held key set then ", b"31", b"w", 0);
    trial.counted(b"19 tags then ", 32);
}

// Keys of 64 bytes, of 65, and with a byte above 127.
pub(crate) fn key_limit(counts: &mut Counts) {
    let letters: [u8; LONG_VALUE] = filled(b'a');
    let mut trial = Trial::new(counts);
    trial.inserted(b"19 key of 64 bytes set ", &letters[..64], b"v", 0);
    trial.inserted(b"19 key of 65 bytes set ", &letters[..65], b"v", 19);
    trial.inserted(b"19 key with byte 128 set ", b"k\x80", b"v", 19);
}

// Values of 8,192 bytes and of 8,193.
pub(crate) fn value_limit(counts: &mut Counts) {
    let letters: [u8; LONG_VALUE] = filled(b'a');
    let mut trial = Trial::new(counts);
    trial.inserted(b"19 value of 8192 bytes set ", b"k", &letters[..8192], 0);
    trial.inserted(b"19 value of 8193 bytes set ", b"k", &letters, 20);
}

// A key with capitals, found lowered and as it came.
pub(crate) fn capitals(counts: &mut Counts) {
    let mut trial = Trial::new(counts);
    trial.inserted(b"19 key Sample set ", b"Sample", b"NA12878", 0);
    trial.got(b"19 value of sample ", b"sample", b"NA12878");
    trial.got(b"19 value of Sample ", b"Sample", b"NA12878");
}

// A record's tags, put into a list of 31 keys and this one.
fn record_into(counts: &mut Counts, label: &[u8], record: &[u8], key: &[u8], stated: usize) {
    let mut trial = Trial::new(counts);
    trial.filled(b"19 31 tags set ", 31, 0);
    trial.inserted(b"19 32nd key set ", key, b"v", 0);
    trial.record_set(label, record, stated);
    trial.counted(b"19 tags then ", 32);
}

// The tags of a record with no translations, where the key of these makes room, and where none does.
pub(crate) fn record_limit(counts: &mut Counts) {
    let mut record = empty_record();
    let n = graph_name::graph_name_new(b"A", &mut record);
    counts.number(b"19 record of A ", n as usize, 0);
    record_into(
        counts,
        b"19 record put in, an absent tag making room ",
        &record,
        b"translation",
        0,
    );
    record_into(
        counts,
        b"19 record put in, none making room ",
        &record,
        b"other",
        21,
    );
}
