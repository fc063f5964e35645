//! The block that leaves out its first `n` items.

use crate::counted::Counted;
use crate::counting::Counting;
use block_trait::{Batch, Pace, Shape};
use items::{ItemType, Items};

/// All but the first `n` items, as GNU Radio's `skiphead`. A tag on one of these goes to the first item that is given.
pub type SkipHead = Counted<Rest>;

/// What comes behind the first items of a stream, at most 2^32 of them.
#[derive(Clone, Copy)]
pub struct Rest;

impl Counting for Rest {
    ghost use Rattle.std.specs.Prelude.{refl};
    ghost use Rattle.kind_laws.specs.Rates.{skiphead-lawful};
    ghost use Rattle.kind_model.specs.Rates.{skiphead};

    ghost equation = { skiphead };

    ghost LEAST = { 0 };

    ghost MOST = { 4294967296 };

    const LEAST: u64 = 0;

    const MOST: u64 = 4_294_967_296;

    fn shape<'a>(item: ItemType, n: u64) -> Shape<'a> {
        Shape {
            pace: Pace::Skip(n),
            ..Shape::sync(item, item)
        }
    }

    fn fill(_item: ItemType, n: u64, batch: &Batch<'_>, out: &mut Items) {
        let window = batch.window;
        let skipped = n.saturating_sub(batch.first) as usize;
        out.push_range(window, skipped.min(window.len()), window.len());
    }

    ghost plain = { λ _ _ _. refl };

    ghost lawful = { λ t n _ _. skiphead-lawful t n };
}
