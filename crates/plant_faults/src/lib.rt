//! Why a call of a plant is refused.
//!
//! It stands below the plant, so that what names such a refusal, as a fault of a graph file does, needs no plant.
#![tactic(auto)]

pub mod fault;

pub use fault::PlantFault;
