//! How far a block is, and what it was fed.

ghost use Rattle.std.specs.Prelude.{◌≡◌, ◌<◌, List, length, Some, slice_get};

use flowgraph::BlockId;

/// How far a block is.
#[derive(Clone, Copy, Debug, PartialEq, Eq)]
pub struct Progress {
    /// The firings that are committed.
    pub firings: u64,
    /// The firings of the claim in flight; 0 if there is none.
    pub claimed: u32,
    /// Whether the block is done.
    pub done: bool,
}

/// The length of a source's tape, and whether it is closed. Decisions do not look at those of other blocks.
#[derive(Clone, Copy, Debug, PartialEq, Eq)]
pub struct Tape {
    /// How many items it has.
    pub length: u64,
    /// Whether nothing more will come.
    pub closed: bool,
}

/// Knows the tapes of the sources. Firings read them in their place.
pub trait Tapes {
    ghost use Rattle.firing_rules.specs.declared.progress.Tape.{Tape};

    /// For each block, the length of its tape and whether it is closed.
    ghost tapes: { Self → List Tape };

    /// The length of a block's tape, and whether it is closed.
    fn tape(&self, block: BlockId) -> Tape
        requires { block.0 < length (tapes self.now) }
        ensures { slice_get (tapes self.now) block.0 ≡ Some result };
}
