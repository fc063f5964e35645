//! How often the blocks of a graph fire for one another, and how large its buffers are.
#![tactic(auto)]

pub mod answers;
mod counts;
mod firings;
mod fraction;
mod needs;
mod order;
mod ratios;
pub mod sizes;
mod tables;

pub use answers::{Rates, Repetitions, balance};
pub use sizes::{BufferCapacities, capacities};

/// The greatest numerator, denominator, count of firings, of items and of iterations, and capacity needed.
pub const LIMIT: u64 = 65536;
