//! How a run is cut into slices of time: how far back each block looks, how much slices overlap, and what each slice
//! drops.
#![tactic(auto)]

mod counts;
mod first_firings;
mod kind_look_back;
pub mod later;
pub mod look_back;
mod order;
mod overlap;
mod past;
pub mod plan;
pub mod reach;
mod rising;
pub mod slice;
pub mod wanted;

pub use later::{first_to_count, later_graph};
pub use look_back::{Forgets, LookBack};
pub use plan::{Asks, Plan, Planned, Sink, Source, plan_slices};
pub use slice::{Part, Slice};

/// A plan in which a block settles only after more firings than this is refused.
pub const MOST_FIRINGS: u64 = 1 << 40;

/// No slice begins at a later iteration.
pub const MOST_ITERATIONS: u64 = 1 << 46;
