//! The entries of a history of calls.

ghost use Rattle.std.specs.Prelude.{◌≡◌, ◌≤◌, ℕ, map, false, IsTrue, IfOk};
ghost use Rattle.std.specs.Arc.{arc_value};
ghost use Rattle.items.specs.Items.{type_of, numbers_of};
ghost use Rattle.settings.specs.Values.{value_of};
ghost use Rattle.plant_storage.specs.Stores.{mark_of};
ghost use Rattle.plant.specs.Answers.{piece_reply};
ghost use Rattle.call_history.specs.Logs.{is_at};
ghost use Rattle.call_history.specs.History.{asked_by, said_by, noted_by};

use flowgraph::BlockId;
use items::{Items, Mark};
use plant::{Piece, PlantFault};
use plant_storage::are_same;
use settings::Value;
use std::alloc::{AllocError, Global};
use std::sync::Arc;

/// Who made a call.
#[derive(Clone, Copy, Debug, PartialEq, Eq)]
pub enum CallerId {
    /// The caller of this number, at its desk.
    Desk(u32),
    /// The worker of this block.
    Worker(BlockId),
}

/// The feed of a source in one call.
#[derive(Debug, Drop)]
pub struct Feed {
    /// The source.
    pub source: BlockId,
    /// The items.
    pub items: Items,
    /// The marks on them.
    pub marks: Vec<Mark>,
}

/// The setting of a block in one call.
#[derive(Debug, Drop)]
pub struct Setting {
    pub block: BlockId,
    /// The item of its first input from which on it holds; with `None` the first that was neither taken nor claimed.
    pub at: Option<u64>,
    pub value: Value,
}

/// A call of a plant with its arguments. Long arguments are shared.
#[derive(Debug, Drop)]
pub enum Call {
    /// Of a source.
    Feed(Arc<Feed, Global>),
    /// Of a source.
    Close(BlockId),
    /// Of a block with a setting.
    Set(Arc<Setting, Global>),
    /// Of a sink, from this item on, at most so many.
    Read(BlockId, u64, u64),
    /// Of a block's worker, for at most so many firings.
    Claim(BlockId, u32),
    /// The claim of this block that was in flight, with its work done.
    Commit(BlockId),
}

/// What a call returned.
#[derive(Debug, Drop)]
pub enum Answer {
    /// How many items the tape holds then.
    Fed(u64),
    /// How many items the tape holds.
    Closed(u64),
    /// The item from which on the setting is in force.
    Taken(u64),
    /// What a sink showed.
    Piece(Arc<Piece, Global>),
    /// The first firing, and how many there are.
    Claimed(u64, u32),
    /// The block is done.
    Done,
    /// How many firings the commit had.
    Did(u32),
    /// The call was refused, and changed nothing.
    Refused(PlantFault),
}

/// A call that was made while threads ran, with its reply.
#[derive(Debug, Drop)]
pub struct Entry {
    pub caller: CallerId,
    pub call: Call,
    pub reply: Answer,
}

impl Entry {
    /// Whether the caller at this desk made the call.
    pub fn is_of(&self, desk: usize) -> bool
        ensures { result ≡ is_at desk self.now.caller }
    {
        match self.caller {
            CallerId::Desk(number) => number as usize == desk,
            CallerId::Worker(_) => false,
        }
    }

    /// Whether a worker made the call, or the caller at one of so many desks.
    pub fn is_within(&self, desks: usize) -> bool
        ensures { IsTrue result → (n : ℕ) → desks ≤ n → is_at n self.now.caller ≡ false }
    {
        match self.caller {
            CallerId::Desk(number) => (number as usize) < desks,
            CallerId::Worker(_) => true,
        }
    }

    /// Whether another entry records the same. It looks at each item of a feed or a read once.
    pub fn is_same(&self, other: &Entry) -> bool
        ensures { IsTrue result → noted_by self.now ≡ noted_by other.now }
    {
        self.caller == other.caller
            && self.call.is_same(&other.call)
            && self.reply.is_same(&other.reply)
    }
}

impl Call {
    fn is_same(&self, other: &Call) -> bool
        ensures { IsTrue result → asked_by self.now ≡ asked_by other.now }
    {
        match (self, other) {
            (Call::Feed(feed), Call::Feed(other)) => feed.is_same(other),
            (Call::Close(source), Call::Close(other)) => source.0 == other.0,
            (Call::Set(setting), Call::Set(other)) => setting.is_same(other),
            (Call::Read(sink, from, max), Call::Read(other, start, most)) => {
                sink.0 == other.0 && from == start && max == most
            }
            (Call::Claim(block, max), Call::Claim(other, most)) => {
                block.0 == other.0 && max == most
            }
            (Call::Commit(block), Call::Commit(other)) => block.0 == other.0,
            _ => false,
        }
    }
}

impl Feed {
    fn is_same(&self, other: &Feed) -> bool
        ensures source { IsTrue result → self.now.source.0 ≡ other.now.source.0 }
        ensures item { IsTrue result → type_of self.now.items ≡ type_of other.now.items }
        ensures items { IsTrue result → numbers_of self.now.items ≡ numbers_of other.now.items }
        ensures marks { IsTrue result → map mark_of self.now.marks.items ≡ map mark_of other.now.marks.items }
    {
        self.source.0 == other.source.0
            && self.items == other.items
            && same_marks(&self.marks, &other.marks)
    }
}

fn same_marks(one: &[Mark], other: &[Mark]) -> bool
    ensures { IsTrue result → one.now ≡ other.now }
{
    one == other
}

impl Setting {
    fn is_same(&self, other: &Setting) -> bool
        ensures block { IsTrue result → self.now.block.0 ≡ other.now.block.0 }
        ensures at { IsTrue result → self.now.at ≡ other.now.at }
        ensures value { IsTrue result → value_of self.now.value ≡ value_of other.now.value }
    {
        self.block.0 == other.block.0 && self.at == other.at && self.value.is_same(&other.value)
    }
}

impl Answer {
    fn is_same(&self, other: &Answer) -> bool
        ensures { IsTrue result → said_by self.now ≡ said_by other.now }
    {
        match (self, other) {
            (Answer::Fed(total), Answer::Fed(other)) => total == other,
            (Answer::Closed(total), Answer::Closed(other)) => total == other,
            (Answer::Taken(at), Answer::Taken(other)) => at == other,
            (Answer::Piece(piece), Answer::Piece(other)) => same_piece(piece, other),
            (Answer::Claimed(first, count), Answer::Claimed(other, many)) => {
                first == other && count == many
            }
            (Answer::Done, Answer::Done) => true,
            (Answer::Did(count), Answer::Did(other)) => count == other,
            (Answer::Refused(fault), Answer::Refused(other)) => fault == other,
            _ => false,
        }
    }
}

fn same_piece(one: &Piece, other: &Piece) -> bool
    ensures { IsTrue result → piece_reply one.now ≡ piece_reply other.now }
{
    one.from == other.from
        && one.held == other.held
        && one.items == other.items
        && are_same(&one.tags, &other.tags)
        && one.done == other.done
}

/// A value in an `Arc`.
pub fn in_arc<T: Drop>(alloc: Global, value: T) -> Result<Arc<T, Global>, AllocError>
    ensures { IfOk result (λ it. arc_value it ≡ value) }
{
    match Arc::new(alloc, value) {
        Ok(it) => Ok(it),
        Err(_) => Err(AllocError),
    }
}
