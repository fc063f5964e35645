//! Graphs of any shape: building them block by block and connection by connection, and testing them.
#![tactic(auto)]

mod asked;
mod between;
mod by_port;
mod counts;
pub mod fault;
mod gains;
pub mod graph;
mod loops;
pub mod parts;
mod port_tests;
mod ports;
mod ranks;
mod refusals;
mod rows;
mod step_order;
pub mod valid;
mod wiring;

pub use block_trait::Block;
pub use fault::{BlockOption, GraphFault, Limit, Side};
pub use graph::Graph;
pub use parts::{BlockId, Connection, Input, Options};
pub use ports::MOST_PORTS;
pub use stream_model::Policy;
pub use valid::Valid;
