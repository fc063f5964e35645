//! What a claim decides.

/// What a block waits for.
#[derive(Clone, Copy, Debug, PartialEq, Eq)]
pub enum Need {
    /// Items on this input, the lowest that lacks items for one firing.
    Items(usize),
    /// Room on this output, the lowest without room for one firing.
    Room(usize),
}

/// What a claim decides, in the order in which it looks: whether the block is done or busy, whether anybody reads its
/// outputs, how many firings fit, whether any ever will, and what it waits for.
#[derive(Clone, Copy, Debug, PartialEq, Eq)]
pub enum Decision {
    /// So many firings are claimed, from `first` on.
    Claimed { first: u64, count: u32 },
    /// The block was done before.
    Done,
    /// The block becomes done: nobody reads its outputs, its limit is reached, or an ended input lacks items for one
    /// firing.
    Ended,
    /// A claim is in flight.
    Busy,
    /// No firing fits yet.
    Waiting(Need),
}
