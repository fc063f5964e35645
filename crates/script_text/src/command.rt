//! What a line says.
use items::{BlockName, Mark};

/// A command, with the name of the block that it is for.
#[derive(Debug, Drop)]
pub enum Command {
    /// Put items, and marks on them, at the end of a source's tape.
    Feed {
        name: BlockName,
        items: Vec<i64>,
        marks: Vec<Mark>,
    },
    /// End a source's tape.
    Close {
        name: BlockName,
    },
    /// Set a block's value, from this item of its input on, or from the first that is still open.
    Set {
        name: BlockName,
        at: Option<u64>,
        numbers: Vec<i64>,
    },
    /// Claim at most so many firings of a block.
    Claim {
        name: BlockName,
        max: u32,
    },
    /// Do the work of a block's claim, and commit it.
    Commit {
        name: BlockName,
    },
    /// Give up a block's claim.
    Abandon {
        name: BlockName,
    },
    /// Let a block fire at most this often.
    Step {
        name: BlockName,
        max: u32,
    },
    /// Show at most so many items of what a sink holds, from one on.
    Read {
        name: BlockName,
        from: u64,
        max: u32,
    },
    /// Ask what a block waits for.
    Why {
        name: BlockName,
    },
    /// Ask whether no block can act.
    Quiet,
    /// Let all blocks fire until none can act.
    Settle,
}

/// What a line says.
#[derive(Debug, Drop)]
pub enum Line {
    /// Nothing: it is a comment, or has only spaces.
    Nothing,
    /// Nothing that a line may say.
    Bad,
    Command(Command),
}
