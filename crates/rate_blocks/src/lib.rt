//! Blocks that change a rate, take turns or move a stream.
#![tactic(auto)]

pub mod argmax;
pub mod counted;
pub mod counter;
mod counting;
pub mod deinterleave;
pub mod delay;
pub mod frame_extremes;
pub mod head;
pub mod insert;
pub mod integrate;
pub mod interleave;
pub mod keep_m_in_n;
pub mod keep_one_in_n;
pub mod pattern;
pub mod per_frame;
pub mod permute;
mod port_count;
pub mod repeat;
pub mod skiphead;
pub mod stream_mux;
mod turns;

pub use argmax::Argmax;
pub use counted::Counted;
pub use counter::Counter;
pub use deinterleave::Deinterleave;
pub use delay::Delay;
pub use frame_extremes::{FrameMaximum, FrameMinimum};
pub use head::Head;
pub use insert::Insert;
pub use integrate::Integrate;
pub use interleave::Interleave;
pub use keep_m_in_n::KeepMInN;
pub use keep_one_in_n::KeepOneInN;
pub use pattern::Pattern;
pub use permute::Permute;
pub use repeat::Repeat;
pub use skiphead::SkipHead;
pub use stream_mux::StreamMux;
