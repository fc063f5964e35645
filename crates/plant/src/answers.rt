//! What the calls of a plant answer.

use claimed_work::Job;
use firing_rules::Need;
use flowgraph::Block;
use items::Items;
use tags::Tag;

/// How many items a source's tape holds after a `feed`.
#[derive(Clone, Copy, Debug, PartialEq, Eq)]
pub struct Fed(pub u64);

/// How many items a closed tape holds.
#[derive(Clone, Copy, Debug, PartialEq, Eq)]
pub struct Closed(pub u64);

/// The item of the block's first input from which on a setting is in force.
#[derive(Clone, Copy, Debug, PartialEq, Eq)]
pub struct Taken(pub u64);

/// What a claim returns.
#[derive(Debug, Drop)]
pub enum Claim<B: Block> {
    /// The firings that were claimed: at least one, with all that their work needs.
    Claimed(Job<B>),
    /// The block is done, possibly as a result of this call.
    Done,
    /// A claim of the block is in flight.
    Busy,
    /// No firing fits as yet.
    Waiting(Need),
}

/// What a step returns.
#[derive(Clone, Copy, Debug, PartialEq, Eq)]
pub enum Step {
    /// So many firings were done.
    Did(u32),
    /// The block is done, possibly as a result of this call.
    Done,
    /// A claim of the block is in flight.
    Busy,
    /// No firing fits as yet.
    Waiting(Need),
}

/// How many firings a commit was of.
#[derive(Clone, Copy, Debug, PartialEq, Eq)]
pub struct Did(pub u32);

/// What a sink shows.
#[derive(Debug, Drop)]
pub struct Piece {
    /// The number of the first item shown.
    pub from: u64,
    /// How many items the sink holds in all.
    pub held: u64,
    /// The items from `from` on.
    pub items: Items,
    /// The tags on these items, in order. Their offsets count from the first item of the stream.
    pub tags: Vec<Tag>,
    /// Whether the sink is done, so that it holds its whole stream.
    pub done: bool,
}

/// All that a sink holds, in its place.
#[derive(Clone, Copy, Debug)]
pub struct SinkView<'a> {
    pub items: &'a Items,
    /// The tags on the items, in order.
    pub tags: &'a [Tag],
    /// Whether the sink is done, so that it holds its whole stream.
    pub done: bool,
}

/// How a plant came to rest.
#[derive(Clone, Copy, Debug, PartialEq, Eq)]
pub enum Settled {
    /// Each block is done.
    Done,
    /// Some block is not done, and none can act.
    Quiet,
}

/// How far a plant is: how many items its sources were fed, and how many of these they have given.
#[derive(Clone, Copy, Debug, PartialEq, Eq)]
pub struct Headway {
    /// The items that all sources together have given.
    pub given: u64,
    /// The items that they were fed.
    pub fed: u64,
}
