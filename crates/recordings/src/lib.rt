//! Streams of which only the end may be in memory: items and tags that forget their beginnings, and settings.
//!
//! A [`Recording`] that forgets nothing is a stream that is kept whole, as the tapes and sinks of a `Plant` are. Of
//! what it forgets a contract still sees all, and the memory nothing:
//!
//! ```text
//! let mut recording = Recording::new(alloc, ItemType::Short);
//! recording.reserve(items.len(), tags.len())?;
//! recording.push(&items, &tags);               // takes no memory
//! recording.forget(400);                       // items and tags before item 400 are out of memory
//! recording.slice(alloc, 400, recording.len()) // and the rest is here
//! ```
//!
//! [`RecentItems`] and [`RecentTags`] are its halves. [`RecentSettings`] are the settings of a block, of which those
//! that no later item reads may go. What is forgotten stands in a `Past`, which is there for contracts alone. Items are
//! moved in memory only once more are forgotten than are kept.
#![tactic(auto)]

pub mod past;
pub mod recent_items;
pub mod recent_settings;
pub mod recent_tags;
pub mod recording;

pub use past::Past;
pub use recent_items::{Kept, RecentItems};
pub use recent_settings::RecentSettings;
pub use recent_tags::RecentTags;
pub use recording::Recording;
