//! The number types of items: one trait, so that code over items is written once.
#![tactic(auto)]

pub mod number;
pub mod range;
pub mod vectors;

pub use number::Number;
