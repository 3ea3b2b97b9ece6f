// The next field of a text, from a place on: the fields of an `H` line one by one, any other line as one field, the relations of a tag.
ghost use Rattle.std.specs.Prelude.{◌≡◌, ◌≤◌, ◌<◌, ◌+◌, length};
ghost use Rattle.model.specs.declared.Kind.{Kind};
ghost use Rattle.fields.specs.declared.field.Source.TheVariants.{Tag};

use crate::field::Source;
use crate::line::{Field, line_field};

// How many lines and fields have been begun. A rule of the project has it lent to each reader of a field, and moved on there.
#[derive(Clone, Copy, Debug, Default, PartialEq, Eq)]
pub struct Tally {
    pub lines: usize,
    pub fields: usize,
}

// A text that is read field by field: where the line or the tag being read stops (one past its end), and where the next field begins. By places
// and not by `split`, since a refusal tells the byte.
#[derive(Drop)]
pub struct Fields<'a> {
    pub source: Source,
    pub text: &'a [u8],
    pub stop: usize,
    pub at: usize,
    ghost before: { at ≤ stop },
    ghost within: { stop ≤ length text.now + 1 },
    ghost whole: { (kind : Kind) → source ≡ Tag kind → stop ≡ length text.now + 1 },
}

impl<'a> Fields<'a> {
    ghost use Rattle.std.specs.Prelude.{IfSome, IfNone};
    ghost use Rattle.fields.specs.Rest.{first_stop, Tallies, Reads};

    // The fields of a text: header lines begin with a line, a tag with a relation.
    pub fn new(source: Source, text: &'a [u8]) -> Fields<'a>
        ensures source { result.source ≡ source }
        ensures text { result.text.now ≡ text.now }
        ensures stop { result.stop ≡ first_stop source text.now }
        ensures at { result.at ≡ 0 }
    {
        let stop = match source {
            Source::Header => 0,
            Source::Tag(_) => text.len() + 1,
        };
        Fields {
            source,
            text,
            stop,
            at: 0,
        }
    }

    // The next field of an `H` line, or the next relation of a tag.
    fn next_part(&mut self, tally: &mut Tally) -> Field
        requires { Tallies self.old tally.old × (self.old.at < self.old.stop) }
        ensures { Reads self.old tally.old result self.new tally.new }
    {
        let at = self.at;
        let end = text::find_byte(&self.text[..self.stop - 1], at, self.source.separator());
        let next = end + 1;
        tally.fields += 1;
        self.at = next;
        Field {
            content: self.source.content(&self.text[at..end]),
            offset: at,
            start: at,
            size: end - at,
        }
    }

    // The line that begins here: its second field if it is an `H` line, else all of it.
    #[tactic(auto, using(text::proofs::Split::index_within))]
    fn next_line(&mut self, tally: &mut Tally) -> Field
        requires { Tallies self.old tally.old × (self.old.stop ≤ self.old.at) × (self.old.at < length self.old.text.now) }
        ensures { Reads self.old tally.old result self.new tally.new }
    {
        let at = self.at;
        let end = text::find_byte(self.text, at, b'\n');
        let line = &self.text[at..end];
        tally.lines += 1;
        self.stop = end + 1;
        if line.starts_with(b"H\t") {
            self.at = at + 2;
            return self.next_part(tally);
        }
        tally.fields += 1;
        self.at = end + 1;
        line_field(line, at)
    }

    // The next field, counted by the tally, which is lent and moved on here; none at the end of the text.
    pub fn next(&mut self, tally: &mut Tally) -> Option<Field>
        requires { Tallies self.old tally.old }
        ensures read { IfSome result (λ field. Reads self.old tally.old field self.new tally.new) }
        ensures done { IfNone result ((self.old.stop ≤ self.old.at) × (length self.old.text.now ≤ self.old.at)) }
    {
        if self.at < self.stop {
            return Some(self.next_part(tally));
        }
        if self.at < self.text.len() {
            return Some(self.next_line(tally));
        }
        None
    }
}
