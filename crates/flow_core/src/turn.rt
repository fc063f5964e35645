//! How much of a run is done at once.

/// The most firings of a block that a worker claims at once, or that a settling plant makes in one step.
pub const TURN: u32 = 65_536;
