// The strict reading of a line, field by field.
ghost use Rattle.std.specs.Prelude.{◌≡◌};
ghost use Rattle.model.specs.Strict.{strict};

use crate::parts::Parts;
use crate::tag::Tags;

// The strict reading of a line: fine, or the number of the first faulty field, where the first field is number 0.
pub fn check_strict(line: &[u8]) -> Result<(), usize>
    ensures { result ≡ strict line.now }
{
    let mut fields = Parts::of(line, b'\t');
    if fields.next() != Some(b"H".as_slice()) {
        return Err(0);
    }
    let mut tags = Tags::new();
    for (place, field) in fields.enumerate() {
        if !tags.take(field) {
            return Err(place + 1);
        }
    }
    Ok(())
}
