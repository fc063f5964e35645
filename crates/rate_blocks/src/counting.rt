//! What one block with a number does otherwise than another.
ghost use Rattle.std.specs.Prelude.{◌≡◌, ◌≤◌, ◌+◌, ℕ, length};
ghost use Rattle.stream_model.specs.declared.vocabulary.ItemType.{ItemType};
ghost use Rattle.stream_model.specs.Meaning.{Meaning, IsLawful};
ghost use Rattle.items.specs.Items.{type_of, numbers_of, spare_of};
ghost use Rattle.block_trait.specs.Fill.{CanFill, HasFilled};
ghost use Rattle.block_trait.specs.Shape.{IsShape, IsPlacedBy};
ghost use Rattle.rate_blocks.specs.Counted.{IsPlain};

use block_trait::{Batch, Shape};
use items::{ItemType, Items};

/// What a block makes of one stream by a number.
pub trait Counting: Drop {
    /// What the block means, by the type of its items and the number.
    ghost equation: { ItemType → ℕ → Meaning };

    /// The least number that it takes.
    ghost LEAST: { ℕ };

    /// The greatest.
    ghost MOST: { ℕ };

    const LEAST: u64;

    const MOST: u64;

    /// Everything of the block but its equation.
    fn shape<'a>(item: ItemType, n: u64) -> Shape<'a>
        requires least { LEAST ≤ n }
        ensures shape { (p : ℕ) → IsShape (equation item n) p result }
        ensures placed { (p : ℕ) → IsPlacedBy (equation item n) (λ _ s. s) p result.pace };

    /// Does the firings of a batch: writes what they give into the empty `out`.
    fn fill(item: ItemType, n: u64, batch: &Batch<'_>, out: &mut Items)
        requires least { LEAST ≤ n }
        requires most { n ≤ MOST }
        requires can { CanFill (equation item n) batch.now out.old }
        ensures items { HasFilled (equation item n) batch.now out.new }
        ensures item_type { type_of out.new ≡ type_of out.old }
        ensures room { spare_of out.old ≤ spare_of out.new + length (numbers_of out.new) };

    /// The block has one input and one output, and no past, setting or state.
    ghost plain: { (item : ItemType) (n : ℕ) → LEAST ≤ n → IsPlain item (equation item n) };

    /// The laws that the runtime rests on.
    ghost lawful: { (item : ItemType) (n : ℕ) → LEAST ≤ n → n ≤ MOST → IsLawful (equation item n) };
}
