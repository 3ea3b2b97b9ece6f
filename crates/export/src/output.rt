// A text written to an output if it fits: what appends a text is its measure too, on an output of no bytes.
ghost use Rattle.model.specs.Bytes.{Bytes};
ghost use Rattle.export.specs.Texts.{AppendsText, Writes};

use model::Fault;

// Writes the text that `append_text` appends to the front of the output, if it fits, and gives its length.
pub fn write_text<F: Fn(&mut [u8]) -> usize>(out: &mut [u8], append_text: F) -> Result<usize, Fault>
    requires { F.IsAlwaysCallable append_text }
    ensures { (text : Bytes) → AppendsText F.Fn append_text text → Writes text out.old result out.new }
{
    if out.len() < append_text(&mut []) {
        return Err(Fault::OutputShort);
    }
    Ok(append_text(out))
}
