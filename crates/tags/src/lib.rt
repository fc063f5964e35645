//! Stream tags: their order, the sorted lists of them that travel with streams, and where a block moves them.
#![tactic(auto)]

mod rate;
mod tag_list;

pub use items::{Mark, Tag, TagKey};
pub use rate::place;
pub use stream_model::Policy;
pub use tag_list::Tags;
