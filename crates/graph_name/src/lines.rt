// The strict reading of a header line.
ghost use Rattle.std.specs.Prelude.{◌≡◌};
ghost use Rattle.model.specs.Strict.{strict};
ghost use Rattle.model.specs.Values.{strict_number};

// 0 for a line that is fine, else one more than the number of the first faulty field.
#[tactic(auto, using(strict::proofs::Bound::strict_bound))]
#[unsafe(no_mangle)]
pub extern "C" fn graph_name_check_strict(line: &[u8]) -> u64
    ensures { result ≡ strict_number (strict line.now) }
{
    match strict::check_strict(line) {
        Ok(()) => 0,
        Err(n) => n as u64 + 1,
    }
}
