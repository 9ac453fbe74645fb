// Numbers of which each is above the one before it.
ghost use Rattle.std.specs.Prelude.{◌≡◌};
ghost use Rattle.check_flow.specs.Rising as spec;

/// Whether each number is above the one before it.
pub(crate) fn rises(numbers: &[u64]) -> bool
    ensures { result ≡ spec.rises None numbers.now }
{
    let mut last = None;
    for number in numbers {
        if !is_above(last, *number) {
            return false;
        }
        last = Some(*number);
    }
    true
}

fn is_above(last: Option<u64>, number: u64) -> bool
    ensures { result ≡ spec.is_above last number }
{
    match last {
        Some(before) => before < number,
        None => true,
    }
}
