// What a field of an `H` line, an `@` line or a relation of a tag says by itself. Names are given by their places.
ghost use Rattle.std.specs.Prelude.{◌≡◌, ◌+◌, ◌≤◌, ◌<◌, length, take, drop};
ghost use Rattle.model.specs.Bytes.{split};
ghost use Rattle.model.specs.Reading.{two_parts, tag_number};
ghost use Rattle.model.specs.Faults.{fault_number};
ghost use Rattle.fields.specs.Fields.{related_by, one_named, classify_string, classify_typed, classify_gaf, classify_part, separator_of};
ghost use Rattle.fields.specs.Contents.{is_string, parts_of, NeitherEmpty, meaning_of, PlacesIn};

use model::{Fault, Kind};

// What is read: header lines, or the relations of a tag, which are of one kind. An Option<Kind> would say None for header lines.
#[derive(Clone, Copy, Debug, PartialEq, Eq)]
pub enum Source {
    Header,
    Tag(Kind),
}

// What a field says: nothing that counts; an own name, from a place on to the end; or a relation of a kind, whose first name stands from
// `start` up to `separator`, and whose second name follows that to the end.
#[derive(Clone, Copy, Debug, PartialEq, Eq)]
pub enum Content {
    Nothing,
    Name(usize),
    Relation {
        kind: Kind,
        start: usize,
        separator: usize,
    },
}

// Whether a field's type is Z, if it is TAG:TYPE:VALUE.
pub fn typed_field_is_string(f: &[u8]) -> Result<bool, Fault>
    ensures { result ≡ is_string f.now }
{
    match f {
        [_, _, b':', kind, b':', ..] => Ok(*kind == b'Z'),
        _ => Err(Fault::BadTypedField),
    }
}

// Where the separator stands, if s is two non-empty parts round one.
fn two_parts(s: &[u8], separator: u8) -> Option<usize>
    ensures { (parts_of s.now result ≡ two_parts (split separator s.now)) × NeitherEmpty s.now result }
{
    let i = text::find_byte(s, 0, separator);
    if i == 0 || s.len() <= i + 1 || text::find_byte(s, i + 1, separator) < s.len() {
        return None;
    }
    Some(i)
}

// What f says from a place on, as a relation of a kind round a separator.
fn relation(
    f: &[u8],
    start: usize,
    separator: u8,
    kind: Kind,
    fault: Fault,
) -> Result<Content, Fault>
    requires { start ≤ length f.now }
    ensures { (meaning_of f.now result ≡ related_by kind (fault_number fault) (two_parts (split separator (drop start f.now)))) × PlacesIn f.now result }
{
    let i = two_parts(&f[start..], separator).ok_or(fault)?;
    Ok(Content::Relation {
        kind,
        start,
        separator: start + i,
    })
}

// What a typed field of type Z says, by its tag.
#[tactic(auto, using(crate::proofs::Classified::two_bytes), unfolding(crate::specs::Fields::classify_string))]
fn string_field(f: &[u8]) -> Result<Content, Fault>
    requires { 5 ≤ length f.now }
    ensures { (meaning_of f.now result ≡ classify_string f.now) × PlacesIn f.now result }
{
    match &f[..2] {
        b"NM" => Ok(Content::Name(5)),
        b"SG" => relation(f, 5, b',', Kind::Subgraph, Fault::BadSubgraphField),
        b"TL" => relation(f, 5, b',', Kind::Translation, Fault::BadTranslationField),
        _ => Ok(Content::Nothing),
    }
}

// What a field of an `H` line after its first says.
#[tactic(auto, unfolding(crate::specs::Fields::classify_typed))]
fn typed_field(f: &[u8]) -> Result<Content, Fault>
    ensures { (meaning_of f.now result ≡ classify_typed f.now) × PlacesIn f.now result }
{
    if typed_field_is_string(f)? {
        return string_field(f);
    }
    Ok(Content::Nothing)
}

// What an `@RN` line says: its name, the one further field.
fn name_line(line: &[u8]) -> Result<Content, Fault>
    requires { 4 ≤ length line.now }
    ensures { (meaning_of line.now result ≡ one_named (split 9 (drop 4 line.now))) × PlacesIn line.now result }
{
    if line.len() <= 4 || text::find_byte(line, 4, b'\t') < line.len() {
        return Err(Fault::BadNameLine);
    }
    Ok(Content::Name(4))
}

// What a line says whose first field is `@` and a tag of two bytes.
#[tactic(auto, using(crate::proofs::Classified::two_bytes), unfolding(crate::specs::Fields::classify_gaf))]
pub(crate) fn gaf_line(line: &[u8]) -> Result<Content, Fault>
    requires { 4 ≤ length line.now }
    ensures { (meaning_of line.now result ≡ classify_gaf (take 2 (drop 1 line.now)) (split 9 (drop 4 line.now))) × PlacesIn line.now result }
{
    match &line[1..3] {
        b"RN" => name_line(line),
        b"SG" => relation(line, 4, b'\t', Kind::Subgraph, Fault::BadSubgraphLine),
        b"TL" => relation(line, 4, b'\t', Kind::Translation, Fault::BadTranslationLine),
        _ => Ok(Content::Nothing),
    }
}

// Why a relation of a tag of a kind is refused.
fn relation_fault(kind: Kind) -> Fault
    ensures { fault_number result ≡ tag_number kind }
{
    match kind {
        Kind::Subgraph => Fault::BadSubgraphRelation,
        Kind::Translation => Fault::BadTranslationRelation,
    }
}

impl Source {
    // The separator of fields, or of relations.
    pub(crate) fn separator(self) -> u8
        ensures { result ≡ separator_of self }
    {
        match self {
            Source::Header => b'\t',
            Source::Tag(_) => b';',
        }
    }

    // What stands between separators says: a field of an `H` line, or a relation of a tag.
    pub(crate) fn content(self, f: &[u8]) -> Result<Content, Fault>
        ensures { (meaning_of f.now result ≡ classify_part self f.now) × PlacesIn f.now result }
    {
        match self {
            Source::Header => typed_field(f),
            Source::Tag(kind) => relation(f, 0, b',', kind, relation_fault(kind)),
        }
    }
}
