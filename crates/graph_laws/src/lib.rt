//! Laws of graphs: what the tests of a graph answer, and what a valid graph of lawful blocks keeps.
//!
//! The definitions stand in `specs/`, and the functions of `laws` have empty bodies, since each is a law that its
//! clause states.
#![tactic(auto)]

pub mod laws;
