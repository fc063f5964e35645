//! The block that keeps the last of each `n` items.
use crate::counted::Counted;
use crate::per_frame::{MakesOne, PerFrame};
use numbers::Number;

/// The last of each `n` items, as GNU Radio's `keep_one_in_n`.
pub type KeepOneInN = Counted<PerFrame<Lasts>>;

/// The last item of a frame.
#[derive(Drop)]
pub struct Lasts;

impl MakesOne for Lasts {
    ghost use Rattle.kind_model.specs.Rates.{keep_one_in_n};
    ghost use Rattle.kind_laws.specs.Rates.{keep_one_in_n-lawful};
    ghost use Rattle.rate_blocks.specs.PerFrame.{last_of, lasts-framed};

    ghost gives = { λ t. last_of };

    ghost equation = { keep_one_in_n };

    fn of_frame<T: Number>(frame: &[T]) -> T {
        frame[frame.len() - 1]
    }

    ghost is_made = { lasts-framed };

    ghost lawful = { keep_one_in_n-lawful };
}
