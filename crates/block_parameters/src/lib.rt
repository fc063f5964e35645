//! The parameters of blocks, and why a block with such parameters cannot be made.
#![tactic(auto)]

pub mod fault;

pub use fault::{ParamFault, Parameter};
