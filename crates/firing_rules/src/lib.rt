//! What a claim decides, from counts alone: firings, items that have come, capacities and what readers have taken.
#![tactic(auto)]

mod counts;
mod decide;
pub mod decision;
pub mod firings;
mod fitting;
mod paces;
pub mod progress;
mod situation;
pub mod waits;

pub use decision::{Decision, Need};
pub use firings::Firings;
pub use progress::{Progress, Tape, Tapes};
pub use waits::BlockNeed;
