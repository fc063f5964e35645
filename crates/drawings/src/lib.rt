//! Graphs of kinds as text that other programs draw.
#![tactic(auto)]

mod dot;
pub mod drawing;
mod mermaid;
mod parts;
mod pieces;
mod words;

pub use drawing::{Format, drawn};
