//! Tags, before and after they are in a stream.
use crate::TagKey;
use std::cmp::Ordering;

/// A tag that is not yet in a stream. Fed to a source, it becomes a tag of that source.
#[derive(Clone, Copy, Debug, PartialEq, Eq, PartialOrd, Ord)]
pub struct Mark {
    /// The number of the item that it is on, where the stream's first item is 0.
    pub offset: u64,
    /// What the value is about.
    pub key: TagKey,
    /// The value.
    pub value: i64,
}

/// A tag of a stream. Tags are ordered by offset, key, value and source.
#[derive(Clone, Copy, Debug, PartialEq, Eq)]
pub struct Tag {
    /// The number of the item that it is on, where the stream's first item is 0.
    pub offset: u64,
    /// What the value is about.
    pub key: TagKey,
    /// The value.
    pub value: i64,
    /// The number of the source block that was fed with it.
    pub source: u32,
}

impl PartialOrd for Tag {
    ghost use Rattle.std.specs.Prelude.{Some};
    ghost use Rattle.std.specs.Cmp.{po};
    ghost use Rattle.items.specs.Tags.{tag_order, tag_order-total, tag_order-ties};

    ghost partial_cmp = { λ a b. Some (tag_order a b) };

    ghost laws = { po tag_order-total tag_order-ties };

    fn partial_cmp(&self, other: &Tag) -> Option<Ordering> {
        Some(self.cmp(other))
    }
}

/// By offset, key, value and source.
impl Ord for Tag {
    ghost use Rattle.std.specs.Prelude.{refl};
    ghost use Rattle.items.specs.Tags.{tag_order, tag_order-total, tag_order-ties};

    ghost cmp = { tag_order };

    ghost total = { tag_order-total };

    ghost matches_partial_cmp = { λ a b. refl };

    ghost matches_eq = { tag_order-ties };

    fn cmp(&self, other: &Tag) -> Ordering {
        self.offset
            .cmp(&other.offset)
            .then_with(|| self.key.cmp(&other.key))
            .then_with(|| self.value.cmp(&other.value))
            .then_with(|| self.source.cmp(&other.source))
    }
}
