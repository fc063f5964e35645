//! What each kind of block means: its equation, from which a firing's items, its tags and its rate follow, and the list
//! definitions of the kernels that compute them.
//!
//! The definitions stand in `specs/`, in the words of a textbook. This crate has no code: the types of `vocabulary` are
//! words that code and definitions share. Only the crates of kinds build on it: the runtime knows nothing of any kind.
#![tactic(auto)]

pub mod vocabulary;

pub use vocabulary::{BitOrder, Checksum};
