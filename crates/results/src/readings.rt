// What a reading answers.
ghost use Rattle.std.specs.Prelude.{◌≡◌};
ghost use Rattle.parse.specs.Refusals.{refusal_in};

use parse::Refusal;

// Hands out what a reading answers: the number, the line, the quoted part and the offset, or all 0.
pub fn refusal_out(
    answer: Result<(), Refusal>,
    line: &mut u64,
    start: &mut u64,
    length: &mut u64,
    offset: &mut u64,
) -> u32
    ensures value { result ≡ (refusal_in answer).number }
    ensures line_after { line.new ≡ (refusal_in answer).line }
    ensures start_after { start.new ≡ (refusal_in answer).start }
    ensures length_after { length.new ≡ (refusal_in answer).size }
    ensures offset_after { offset.new ≡ (refusal_in answer).offset }
{
    let refusal = answer.err();
    *line = refusal.map_or(0, |r| r.line as u64);
    *start = refusal.map_or(0, |r| r.start as u64);
    *length = refusal.map_or(0, |r| r.size as u64);
    *offset = refusal.map_or(0, |r| r.offset as u64);
    refusal.map_or(0, |r| r.fault.into())
}
