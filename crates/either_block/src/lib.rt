//! Blocks of two types in one graph.
#![tactic(auto)]

pub mod either;

pub use either::Either;
