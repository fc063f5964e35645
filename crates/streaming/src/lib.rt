//! A plant that streams. It forgets what its sources have taken and what was drained of its sinks, so it runs in
//! constant memory for as long as it is fed.
//!
//! ```text
//! let mut plant = StreamingPlant::open(alloc, graph)?;
//! loop {
//!     plant.feed(source, &items, &marks)?;        // a piece of what comes in
//!     plant.settle(alloc, max)?;                  // all that can be worked on is
//!     let piece = plant.drain(alloc, sink, max)?; // what the sink has taken since
//! }
//! ```
//!
//! The pieces drained of a sink are a beginning of the one stream that the blocks' equations give for all that was ever
//! fed. They are all of it when the sink is done.
#![tactic(auto)]

mod beside;
pub mod draining;
mod forgetting;
mod helped;
pub mod helpers;
pub mod levels;
mod memory;
pub mod streaming_plant;

pub use draining::Appended;
pub use flowgraph::{Block, BlockId, Valid};
pub use helpers::{Helpers, NoHelpers};
pub use levels::Levels;
pub use plant::{
    BlockNeed, Closed, Fed, Headway, Job, Need, Piece, PlantFault, Settled, Step, Taken, Unwatched,
    Watch, Worked,
};
pub use streaming_plant::StreamingPlant;
pub use tags::Tag;
