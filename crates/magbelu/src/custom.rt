//! Blocks of your own: a graph takes any type that implements [`Block`]. [`Single`] makes that easier for one input and
//! one output. A graph of [`Either`] has blocks of your own beside those of any kind.

pub use block_trait::{
    Batch, Block, ByPace, Held, Pace, Placing, Role, Setting, Shape, Shift, Signature, Single,
    Wanted, any_ports, ports, work_single,
};
pub use either_block::Either;
