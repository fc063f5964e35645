//! Places of tags that a block states itself.
ghost use Rattle.std.specs.Prelude.{◌≡◌, ◌<◌, ◌^◌, ℕ};

/// Where blocks of a type put tags, on inputs whose pace is `Pace::Placed`.
pub trait Placing<B> {
    /// Where a tag on an item of an input goes.
    ghost place_of: { B → ℕ → ℕ → ℕ };

    /// Where a tag on an item of an input goes.
    fn place(block: &B, input: usize, offset: u64) -> u64
        requires { place_of block.now input offset < 2 ^ 63 }
        ensures { result ≡ place_of block.now input offset };
}

/// The places of blocks whose paces say where tags go. With `Pace::Placed` a tag would stay on the item of its number.
#[derive(Debug)]
pub struct ByPace;

impl<B> Placing<B> for ByPace {
    ghost place_of = { λ _ _ s. s };

    fn place(_block: &B, _input: usize, offset: u64) -> u64 {
        offset
    }
}
