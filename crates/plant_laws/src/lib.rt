//! Laws of what a plant stores: what it means that the stored things are those of the machine's state, and that each
//! call keeps them so.
//!
//! The definitions stand in `specs/`, and the functions of `laws` have empty bodies, since each is a law that its
//! clause states.
#![tactic(auto)]

pub mod laws;
