//! Sums of items.
ghost use Rattle.std.specs.Prelude.{◌≡◌, ◌≤◌, ◌^◌, length, map};
ghost use Rattle.stream_model.specs.Numbers.{total};

use numbers::Number;

/// The sum of items, few enough that it fits.
pub fn sum_of<T: Number>(items: &[T]) -> i64
    requires { length items.now ≤ 2 ^ 31 }
    ensures { result ≡ total (map T.number items.now) }
{
    let mut sum = 0;
    for item in items {
        sum += item.widen();
    }
    sum
}
