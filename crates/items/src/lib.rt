//! Items of streams, their types, and the tags that travel with them.
#![tactic(auto)]

pub mod block_name;
pub mod fault;
pub mod marks;
pub mod name;
pub mod stream_items;
pub mod tag_key;

pub use block_name::BlockName;
pub use fault::ItemFault;
pub use marks::{Mark, Tag};
pub use name::is_name;
pub use stream_items::Items;
pub use stream_model::{ItemType, Signature};
pub use tag_key::TagKey;
