//! Laws of streams, tags and settings, which hold of every network of lawful blocks whatever calls are made.
//!
//! The definitions stand in `specs/`, and the functions of `laws` have empty bodies, since each is a law that its
//! clause states.
#![tactic(auto)]

pub mod laws;
