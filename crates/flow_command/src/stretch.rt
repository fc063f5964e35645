//! The part of a run that the words of a call name.

use super::slice::Slice;

/// The part of a run to do.
#[derive(Clone, Copy, Debug, PartialEq, Eq)]
pub enum Stretch {
    /// All of it.
    Whole,
    /// One of so many slices.
    Slice(Slice),
    /// The items of each output from this one on, at most so many.
    Items { from: u64, most: u64 },
    /// What the outputs lack.
    Resumed,
}
