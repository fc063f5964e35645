//! Streams: items of one type, the tags on them, and items as raw bytes.

pub use items::{BlockName, ItemFault, ItemType, Items, Mark, Tag, TagKey, is_name};
pub use raw_items::{ByteOrder, Decoder, item_size, push_item_bytes};
