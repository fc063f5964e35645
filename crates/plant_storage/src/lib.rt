//! What a plant stores of a run: tapes and settings, state words, the buffers of outputs, and what sinks have
//! collected.
//!
//! [`Stores`] are plain fields, block by block, without an invariant of their own. That they are those of a state of
//! the machine says `plant_laws/specs/Holds.antt`; that the state gives what a transfer requires, and that what a
//! transfer makes is what the next state requires, are the lemmas of `proofs/`.
//!
//! - [`Intake`] is what a block was handed: its tape, whether that is closed, and its settings. A [`Tape`] has one
//!   owner, or is shared with who compares it later ([`SourceTape`]); it is copied before it changes then.
//! - [`IntakeCopy`] is an intake as it was at one moment.
//! - [`Stored`] tells how much a buffer keeps.
#![tactic(auto)]

pub mod intake;
pub mod intake_copy;
mod opening;
pub mod source_tape;
pub mod stored;
pub mod stores;
pub mod tape;

pub use intake::Intake;
pub use intake_copy::IntakeCopy;
pub use recordings::{RecentSettings, Recording};
pub use source_tape::SourceTape;
pub use stored::Stored;
pub use stores::Stores;
pub use tape::{Tape, are_same};
