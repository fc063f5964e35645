//! What a graph file feeds to a source.

use items::TagKey;

/// A tag that a file feeds.
#[derive(Clone, Copy, Debug, PartialEq, Eq)]
pub struct FileMark {
    /// The number of its item, as in the file: it may be negative, or that of no item.
    pub at: i64,
    /// The key.
    pub key: TagKey,
    /// The value.
    pub value: i64,
}

/// What a file feeds to a source.
#[derive(Debug, Drop)]
pub struct Feed {
    /// The name of the source, as in the file.
    pub source: Vec<u8>,
    /// The numbers of the items, which may lie outside the source's type.
    pub items: Vec<i64>,
    /// The tags on them.
    pub marks: Vec<FileMark>,
}
