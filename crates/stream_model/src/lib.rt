//! What the runtime means: streams, blocks, networks and the machine of calls, as plain lists and numbers.
//!
//! The definitions stand in `specs/`. This crate has no code: the types of `vocabulary` are words that code and
//! definitions share. The laws of what it defines stand in crates above.
#![tactic(auto)]

pub mod vocabulary;

pub use vocabulary::{ItemType, Policy, Role, Shift, Signature, Wanted};
