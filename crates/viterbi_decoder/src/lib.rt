//! The decoder of a trellis: the symbols of the path through a machine whose metrics have the least sum.
#![tactic(auto)]

pub mod decoder;
mod ends;
mod pairs;
mod steps;
mod sums;
mod trace;
mod ways;

pub use decoder::Decoder;
