//! The buffer of an output: the end of its stream, items and tags, that its readers may still take.
#![tactic(auto)]

pub mod buffer;
mod rings;

pub use buffer::Buffer;
pub use ring_readers::{Reader, RingFault};
