//! The block that gives its first `n` items and ends.

ghost use Rattle.std.specs.Prelude.{◌≡◌};
ghost use Rattle.kind_model.specs.Rates.{head};
ghost use Rattle.rate_blocks.specs.Kinds.{counted_of, head_after};

use crate::counted::Counted;
use crate::counting::Counting;
use block_trait::{Batch, Shape};
use items::{ItemType, Items};
use std::marker::PhantomData;

/// The first `n` items; then the block is done. As GNU Radio's `head`.
pub type Head = Counted<First>;

impl Head {
    /// The block that goes on where this one stands after so many items: it has as many fewer to give.
    pub fn after(self, items: u64) -> Head
        ensures { counted_of head result ≡ head_after self items }
    {
        Counted {
            item: self.item,
            n: self.n.saturating_sub(items),
            kind: PhantomData,
        }
    }
}

/// The first items of a stream, at most 2^32.
#[derive(Clone, Copy)]
pub struct First;

impl Counting for First {
    ghost use Rattle.std.specs.Prelude.{refl};
    ghost use Rattle.kind_laws.specs.Rates.{head-lawful};
    ghost use Rattle.kind_model.specs.Rates.{head};

    ghost equation = { head };

    ghost LEAST = { 0 };

    ghost MOST = { 4294967296 };

    const LEAST: u64 = 0;

    const MOST: u64 = 4_294_967_296;

    fn shape<'a>(item: ItemType, n: u64) -> Shape<'a> {
        Shape {
            limit: Some(n),
            ..Shape::sync(item, item)
        }
    }

    fn fill(_item: ItemType, _n: u64, batch: &Batch<'_>, out: &mut Items) {
        out.push_slice(batch.window);
    }

    ghost plain = { λ _ _ _. refl };

    ghost lawful = { λ t n _ _. head-lawful t n };
}
