//! The blocks that choose the least or the greatest of each `n` items.
ghost use Rattle.std.specs.Prelude.{◌≡◌, map};
ghost use Rattle.kind_model.specs.Math.{least_up_to, greatest_down_to};

use crate::counted::Counted;
use crate::per_frame::{MakesOne, PerFrame};
use numbers::Number;
use numbers::vectors::are_in_range;

/// The least of each `n` items, as GNU Radio's `min_xx` of one stream of vectors.
pub type FrameMinimum = Counted<PerFrame<Leasts>>;

/// The greatest of each `n` items, as GNU Radio's `max_xx` of one stream of vectors.
pub type FrameMaximum = Counted<PerFrame<Greatests>>;

/// The least item of a frame.
#[derive(Drop)]
pub struct Leasts;

/// The greatest item of a frame.
#[derive(Drop)]
pub struct Greatests;

// The least of items, and at most `most`.
fn least_among<T: Number>(most: T, items: &[T]) -> T
    ensures { T.number result ≡ least_up_to (T.number most) (map T.number items.now) }
{
    let mut found = most;
    for item in items {
        if item.widen() < found.widen() {
            found = *item;
        }
    }
    found
}

// The greatest of items, and at least `least`.
fn greatest_among<T: Number>(least: T, items: &[T]) -> T
    ensures { T.number result ≡ greatest_down_to (T.number least) (map T.number items.now) }
{
    let mut found = least;
    for item in items {
        if found.widen() < item.widen() {
            found = *item;
        }
    }
    found
}

impl MakesOne for Leasts {
    ghost use Rattle.std.specs.Prelude.{refl};
    ghost use Rattle.stream_model.specs.Numbers.{greatest_of};
    ghost use Rattle.kind_model.specs.Math.{least_up_to};
    ghost use Rattle.kind_model.specs.Rates.{frame_minimum};
    ghost use Rattle.kind_laws.specs.Rates.{frame_minimum-lawful};

    ghost gives = { λ t. least_up_to (greatest_of t) };

    ghost equation = { frame_minimum };

    fn of_frame<T: Number>(frame: &[T]) -> T {
        are_in_range(frame);
        least_among(frame[0], frame)
    }

    ghost is_made = { λ _ _ _. refl };

    ghost lawful = { frame_minimum-lawful };
}

impl MakesOne for Greatests {
    ghost use Rattle.std.specs.Prelude.{refl};
    ghost use Rattle.stream_model.specs.Numbers.{least_of};
    ghost use Rattle.kind_model.specs.Math.{greatest_down_to};
    ghost use Rattle.kind_model.specs.Rates.{frame_maximum};
    ghost use Rattle.kind_laws.specs.Rates.{frame_maximum-lawful};

    ghost gives = { λ t. greatest_down_to (least_of t) };

    ghost equation = { frame_maximum };

    fn of_frame<T: Number>(frame: &[T]) -> T {
        are_in_range(frame);
        greatest_among(frame[0], frame)
    }

    ghost is_made = { λ _ _ _. refl };

    ghost lawful = { frame_maximum-lawful };
}
