//! The plants of graph files.
//!
//! ```text
//! let file = read_graph(alloc, text)?;
//! let plant = file.open(alloc)?; // tested as a graph, opened and fed
//! ```
//!
//! [`OpensPlants`] has `open`, and `stream` for a plant that streams. [`open_later`] opens one whose blocks go on where
//! those of the file stand. [`fault_of`] says why a file is refused, up to its graph or up to its plant.
#![tactic(auto)]

pub mod accepted;
pub mod later;
pub mod opening;
mod taking;

pub use accepted::{Depth, fault_of};
pub use later::open_later;
pub use opening::OpensPlants;
