//! Items as raw bytes: without a header, one behind the other, as files and pipes of samples have them.
#![tactic(auto)]

pub mod byte_order;
mod chunks;
pub mod decoder;
pub mod encoding;
mod raw_number;

pub use byte_order::{ByteOrder, item_size};
pub use decoder::Decoder;
pub use encoding::push_item_bytes;
