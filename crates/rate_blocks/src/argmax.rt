//! The block that tells where the greatest of each `n` items is.
ghost use Rattle.std.specs.Prelude.{◌≡◌, ◌<◌, ◌≤◌, map, length};
ghost use Rattle.kind_model.specs.Rates.{place_of_greatest};

use crate::counted::Counted;
use crate::per_frame::{MakesOne, PerFrame};
use numbers::Number;
use numbers::vectors::are_in_range;

/// The place of the first of the greatest of each `n` items, counted from 0 and wrapped to the items' type, as the
/// first output of GNU Radio's `argmax_xx` of one stream, which gives shorts.
pub type Argmax = Counted<PerFrame<Places>>;

/// The wrapped place of the first of the greatest items of a frame.
#[derive(Drop)]
pub struct Places;

// The place of the first of the greatest items.
fn place_of_greatest<T: Number>(items: &[T]) -> usize
    requires { 1 ≤ length items.now }
    ensures is { result ≡ place_of_greatest T.kind (map T.number items.now) }
    ensures within { result < length items.now }
{
    let mut place = 0;
    are_in_range(items);
    let mut greatest = items[0];
    for k in 1..items.len() {
        let item = items[k];
        if greatest.widen() < item.widen() {
            greatest = item;
            place = k;
        }
    }
    place
}

impl MakesOne for Places {
    ghost use Rattle.std.specs.Prelude.{pos, refl};
    ghost use Rattle.stream_model.specs.Numbers.{wrap};
    ghost use Rattle.kind_model.specs.Rates.{argmax, place_of_greatest};
    ghost use Rattle.kind_laws.specs.Rates.{argmax-lawful};

    ghost gives = { λ t zs. wrap t (pos (place_of_greatest t zs)) };

    ghost equation = { argmax };

    fn of_frame<T: Number>(frame: &[T]) -> T {
        T::wrap(place_of_greatest(frame) as i64)
    }

    ghost is_made = { λ _ _ _. refl };

    ghost lawful = { argmax-lawful };
}
