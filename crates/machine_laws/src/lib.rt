//! Laws of states and calls: what is true of every state that calls lead to, in any network and with any capacities.
//!
//! The definitions stand in `specs/`, and the functions of `laws` have empty bodies, since each is a law that its
//! clause states.
#![tactic(auto)]

pub mod laws;
