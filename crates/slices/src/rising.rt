//! Numbers that rise until none needs to.
ghost use Rattle.std.specs.Prelude.{◌≡◌, ◌<◌, ◌≤◌, true, false, max, length, slice_index, slice_set};

/// Raises a number to another if it is lower, and returns whether it was.
pub fn raise(numbers: &mut [u64], at: usize, to: u64) -> bool
    requires { at < length numbers.old }
    ensures raised { numbers.new ≡ slice_set numbers.old at (max (slice_index numbers.old at) to) }
    ensures lower { result ≡ true → slice_index numbers.old at < to }
    ensures not_lower { result ≡ false → to ≤ slice_index numbers.old at }
{
    let lower = numbers[at] < to;
    numbers[at] = numbers[at].max(to);
    lower
}
