//! Laws of slices: what a run gives on tapes whose first items are left out.
//!
//! The definitions stand in `specs/`, and the functions of `laws` have empty bodies, since each is a law that its
//! clause states. `proofs/` also has a lemma for each kind of block that forgets, `KIND-settles`, and lemmas of where
//! kinds place tags (`Placing`).
#![tactic(auto)]

pub mod laws;
