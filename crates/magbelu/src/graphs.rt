//! Graphs: building and testing them, how often their blocks fire in an iteration, and how large their buffers are.

pub use flowgraph::{
    BlockId, BlockOption, Connection, Graph, GraphFault, Input, Limit, MOST_PORTS, Options, Policy,
    Side, Valid,
};
pub use rates::{BufferCapacities, Rates, Repetitions, balance, capacities};
