//! Which graphs are valid, how often their blocks fire for one another, and how large their buffers must be for it.
//!
//! The definitions stand in `specs/`, and the functions of `laws` have empty bodies, since each is a law that its
//! clause states.
#![tactic(auto)]

pub mod laws;
