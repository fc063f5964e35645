//! The words that code and definitions share.

/// The type of a stream's items. Two ports may be connected where their types are one.
#[derive(Clone, Copy, Debug, PartialEq, Eq)]
pub enum ItemType {
    /// `u8`, from 0 to 255.
    Byte,
    /// `i16`, from -32,768 to 32,767.
    Short,
    /// `i32`, from -2,147,483,648 to 2,147,483,647.
    Int,
}

/// What a block does with streams.
#[derive(Clone, Copy, Debug, PartialEq, Eq)]
pub enum Role {
    /// Gives the tape that it is fed: no input, one output.
    Source,
    /// Takes items and gives items.
    Work,
    /// Keeps its input: one input, no output.
    Keep,
    /// Drops its input: one input, no output.
    Discard,
}

/// How many ports a block may have on one side, and the type of their items.
#[derive(Clone, Copy, Debug, PartialEq, Eq)]
pub struct Signature {
    /// The least number of ports that must be used.
    pub least: u32,
    /// The greatest number of ports that may be used.
    pub most: u32,
    /// The type of the items on each of them.
    pub item: ItemType,
}

/// Which tags go from a block's inputs to its outputs.
#[derive(Clone, Copy, Debug, PartialEq, Eq)]
pub enum Policy {
    /// No tag goes through.
    None,
    /// The tags of each input go to each output.
    All,
    /// The tags of an input go to the output of its number.
    One,
}

/// How a block without a rate moves its stream.
#[derive(Clone, Copy, Debug, PartialEq, Eq)]
pub enum Shift {
    /// The block has a rate.
    No,
    /// The first items are left out, this many.
    Skip(u64),
    /// This many items are given before any is taken.
    Delay(u64),
}

/// What a block's setting may be.
#[derive(Clone, Copy, Debug, PartialEq, Eq)]
pub enum Wanted {
    /// One number, at least the first and at most the second.
    Number(i64, i64),
    /// A list of taps of this length.
    Taps(u32),
}
