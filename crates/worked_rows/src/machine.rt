//! Worked rows of runs: the replies to these calls are these.
//!
//! Blocks are numbered in the order in which their network names them.

pub mod jobs;
pub mod refusals;
pub mod room;
pub mod settings;
pub mod tags;
