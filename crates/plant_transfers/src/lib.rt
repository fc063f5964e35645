//! What moves between buffers and jobs: what a claim is lent, what a commit stores, and what the end of a block lets
//! go.
//!
//! A plant calls these four, each for firings of one block that `firing_rules` has counted:
//!
//! - [`make_room`] reserves what the commit will store, so that a commit takes no memory;
//! - [`lend`] hands a job its windows, which are the items that its firings take with the past before them, its
//!   settings, and places for its outputs;
//! - [`deliver`] stores what came of the work: items and tags go to each output that is still read, readers move on,
//!   and a sink collects;
//! - [`release`] has a block that is done leave its inputs, so that nothing is kept for it.
//!
//! They work on plain fields (`Stores`), by contracts that do not mention the state of the machine. `brought` moves the
//! tags of a firing's items; where each goes, `Block::place` decides.
#![tactic(auto)]

mod brought;
pub mod delivery;
mod firing_range;
mod inputs;
pub mod lent;
mod outputs;
mod places;
mod readers;
pub mod room;
mod rows;
mod sinks;
mod windows;

pub use delivery::{deliver, release};
pub use lent::lend;
pub use room::make_room;
