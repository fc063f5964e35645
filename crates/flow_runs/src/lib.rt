//! What the program `flow` does with a graph file and its standard streams, over any source and sink of bytes.
//!
//! ```text
//! let action = Action::Run(Threading::Adaptive);
//! let notes = Verbosity::WithNotes;
//! let status = serve(rt, alloc, action, notes, name, file, &mut input, &mut output, &mut errors, gate, &mut watch);
//! ```
//!
//! `serve` does all of it. Its contract says which bytes and which status come out for the bytes of the file and of the
//! input. It adds to the commands of `flow_core` those that run in threads:
//!
//! - `run` runs a plant by `threading`.
//! - In `live` the lines of the input make calls at the desk of a running plant.
//! - `fault` says why an action was not done.
#![tactic(auto)]

pub mod fault;
mod live;
mod run;
pub mod serve;
pub mod threading;
