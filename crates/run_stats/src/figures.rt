//! What was measured of a run, as plain numbers. All times are in nanoseconds.

/// How often a block waited at one of its ports, and how long until its next turn.
#[derive(Clone, Copy, Debug, PartialEq, Eq)]
pub struct Waited {
    pub count: u64,
    pub nanos: u64,
}

/// What was measured of a block.
#[derive(Debug, Drop)]
pub struct Figures {
    pub firings: u64,
    /// How many turns it had in which it fired.
    pub turns: u64,
    /// How much processor time these turns took. That is how long it was at work.
    pub nanos: u64,
    /// How long these turns lasted, including the time in which their threads had no processor.
    pub lasted: u64,
    /// Its waits for items, by input.
    pub inputs: Vec<Waited>,
    /// Its waits for room, by output.
    pub outputs: Vec<Waited>,
}

/// What was measured of a run.
#[derive(Debug, Drop)]
pub struct Stats {
    /// From the beginning of the first turn to the end of the last.
    pub nanos: u64,
    /// The blocks, in the order of the graph.
    pub blocks: Vec<Figures>,
}
