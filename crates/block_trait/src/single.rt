//! Blocks with one input and one output.
ghost use Rattle.std.specs.Prelude.{◌≡◌, ◌≤◌, ◌+◌, List, ℤ, length};
ghost use Rattle.stream_model.specs.Meaning.{Meaning};
ghost use Rattle.stream_model.specs.Settings as model;
ghost use Rattle.items.specs.Items.{type_of, numbers_of, spare_of};
ghost use Rattle.block_trait.specs.Fill.{IsSingle, IsFillOf, CanFill, HasFilled};
ghost use Rattle.block_trait.specs.Work.{CanWork, HasWorked, IsWorkOf};

use items::Items;
use settings::Held;

/// A batch of firings of a block with one input and one output: those that one call does.
#[derive(Clone, Copy, Debug)]
pub struct Batch<'a> {
    /// The number of its first firing.
    pub first: u64,
    /// How many firings it has.
    pub count: u64,
    /// The state word before them.
    pub state: u64,
    /// The items that they take, behind the past that they read.
    pub window: &'a Items,
    /// The settings in force over these items.
    pub held: &'a [Held],
}

/// A block with one input, or a source, and one output.
pub trait Single {
    /// What the block means.
    ghost equation: { Self → Meaning };

    /// Does the firings of a batch: writes what they give into the empty `out`, and returns the state word after them.
    /// It takes no memory, and `out` loses none.
    fn fill(&self, batch: &Batch<'_>, out: &mut Items) -> u64
        requires { CanFill (equation self.now) batch.now out.old }
        ensures items { HasFilled (equation self.now) batch.now out.new }
        ensures item_type { type_of out.new ≡ type_of out.old }
        ensures room { spare_of out.old ≤ spare_of out.new + length (numbers_of out.new) }
        ensures word { (ts : List model.Held) (xs : List (List ℤ)) → IsFillOf (equation self.now) ts xs batch.now
            → result ≡ (equation self.now).word ts xs (batch.now.first + batch.now.count) };

    /// The block has these ports.
    ghost single: { (b : Self) → IsSingle (equation b) };
}

/// The `work` of a block with one input and one output.
pub fn work_single<S: Single>(
    block: &S,
    state: u64,
    first: u64,
    count: u64,
    windows: &[Items],
    held: &[Held],
    out: &mut [Items],
) -> u64
    requires { CanWork (S.equation block.now) first count state windows.now held.now out.old }
    ensures items { HasWorked (S.equation block.now) first count state windows.now held.now out.old out.new }
    ensures word { (ts : List model.Held) (xs : List (List ℤ)) → IsWorkOf (S.equation block.now) ts xs first count state
        windows.now held.now
        → result ≡ (S.equation block.now).word ts xs (first + count) }
{
    let batch = Batch {
        first,
        count,
        state,
        window: &windows[0],
        held,
    };
    block.fill(&batch, &mut out[0])
}
