//! A plant that streams between readers and writers. A reader gives the raw items of a source. What a sink takes goes
//! to writers as soon as it is there, items as raw bytes and tags as lines.
//!
//! ```text
//! let mut pipeline = Pipeline::new(alloc, plant)?;
//! pipeline.read_from(alloc, source, ByteOrder::Little, reader)?;
//! pipeline.write_to(alloc, sink, ByteOrder::Little, Some(writer), None)?;
//! let settled = pipeline.run(alloc)?;
//! ```
//!
//! Memory is constant, however long the streams are, if each sink that keeps items has an output. At any time, also
//! after a fault, a writer was given a beginning of what the blocks' equations give for all that was read, and all of
//! it when the run is done. Do not continue a run that ended by a fault: what was read or drained last may be lost.
//! Only after a cut item you may, once its source is closed.
//!
//! A silent input holds up only what needs its items, and a full output only what leads to it, if a `Readiness` tells
//! which they are (`run_with`).
//!
//! A pipeline answers requests while it runs (`run_asked`, `Requests`): to set a block, to tell how far it is, to close
//! a source, and to end the run.
//!
//! Streams may be parts of whole ones (`TapePart`, `StreamPart`). Then the lines of marks and tags count the items of
//! the whole, and a sink may leave out its first items.
#![tactic(auto)]

mod answering;
mod asking;
mod delivery;
pub mod end;
pub mod fault;
mod hearing;
mod intake;
mod joining;
pub mod mark_line;
mod mark_reading;
mod marks;
pub mod part;
pub mod pipeline;
pub mod readiness;
pub mod requests;
mod tracked;
mod turns;
mod writes;

pub use end::{End, Input, Output};
pub use fault::PipelineFault;
pub use mark_line::MarkLine;
pub use marks::MarkReader;
pub use part::{StreamPart, TapePart};
pub use pipeline::Pipeline;
pub use raw_items::ByteOrder;
pub use readiness::{AllReady, Readiness};
pub use requests::{Answer, Ended, NoRequests, Request, Requests, Told};
pub use streaming::{Block, BlockId, Closed, Levels, PlantFault, Settled, StreamingPlant, Taken};
