//! The block that sums up each `n` items.
use crate::counted::Counted;
use crate::per_frame::{MakesOne, PerFrame};
use item_dispatch::sum_of;
use numbers::Number;

/// The sum of each `n` items, wrapped to the items' type, as GNU Radio's `integrate_xx`.
pub type Integrate = Counted<PerFrame<Sums>>;

/// The wrapped sum of the items of a frame.
#[derive(Drop)]
pub struct Sums;

impl MakesOne for Sums {
    ghost use Rattle.std.specs.Prelude.{refl};
    ghost use Rattle.stream_model.specs.Numbers.{wrap, total};
    ghost use Rattle.kind_model.specs.Rates.{integrate};
    ghost use Rattle.kind_laws.specs.Rates.{integrate-lawful};

    ghost gives = { λ t zs. wrap t (total zs) };

    ghost equation = { integrate };

    fn of_frame<T: Number>(frame: &[T]) -> T {
        T::wrap(sum_of(frame))
    }

    ghost is_made = { λ _ _ _. refl };

    ghost lawful = { integrate-lawful };
}
