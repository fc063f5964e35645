//! Everything that a program needs of Magbelu, in one crate: to build flowgraphs, run them and read their sinks, with
//! one error type for all calls.
//!
//! - [`streams`]: items, their types, tags, and items as raw bytes.
//! - [`blocks`]: the kinds of blocks, and the values of their settings.
//! - [`graphs`]: building and testing a graph, its rates and capacities.
//! - [`plants`]: running a graph call by call.
//! - [`runs`]: running a graph in threads.
//! - [`files`]: graph files.
//! - [`custom`]: writing a block of your own.
//! - [`prelude`]: what most programs use.
//!
//! An [`Error`], and each fault that it is made of, is a [`Refusal`]: a name, and a number that no version changes.
#![tactic(auto)]

pub mod blocks;
mod conversions;
pub mod custom;
pub mod error;
pub mod files;
pub mod graphs;
pub mod plants;
pub mod prelude;
pub mod runs;
pub mod streams;

pub use error::Error;
pub use refusal_codes::Refusal;
pub use runs::RunError;
