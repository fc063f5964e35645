//! The block that gives `n` zeros and then its input.

use crate::counted::Counted;
use crate::counting::Counting;
use block_trait::{Batch, Pace, Shape};
use items::{ItemType, Items};

/// `n` zeros, and then all of the input with its tags. GNU Radio's `delay` gives only as many items as come in.
pub type Delay = Counted<Late>;

/// A stream behind zeros, at most 65,536.
#[derive(Clone, Copy)]
pub struct Late;

impl Counting for Late {
    ghost use Rattle.std.specs.Prelude.{refl};
    ghost use Rattle.kind_laws.specs.Rates.{delay-lawful};
    ghost use Rattle.kind_model.specs.Rates.{delay};

    ghost equation = { delay };

    ghost LEAST = { 0 };

    ghost MOST = { 65536 };

    const LEAST: u64 = 0;

    const MOST: u64 = 65_536;

    fn shape<'a>(item: ItemType, n: u64) -> Shape<'a> {
        Shape {
            pace: Pace::Delay(n),
            ..Shape::sync(item, item)
        }
    }

    fn fill(_item: ItemType, _n: u64, batch: &Batch<'_>, out: &mut Items) {
        out.push_zeros(batch.count as usize - batch.window.len());
        out.push_slice(batch.window);
    }

    ghost plain = { λ _ _ _. refl };

    ghost lawful = { λ t n _ most. delay-lawful t n most };
}
