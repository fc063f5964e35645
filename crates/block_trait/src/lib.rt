//! What a block is: the trait of all blocks, with the laws that the runtime rests on.
#![tactic(auto)]

pub mod block;
pub mod placing;
pub mod shape;
pub mod single;

pub use block::Block;
pub use placing::{ByPace, Placing};
pub use settings::{Held, Taps, Value};
pub use shape::{Pace, Setting, Shape, any_ports, ports};
pub use single::{Batch, Single, work_single};
pub use stream_model::{Policy, Role, Shift, Signature, Wanted};
