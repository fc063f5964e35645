//! The plant of any graph: what it stores of a run, and the calls that move it.
//!
//! ```text
//! let mut plant = Plant::open(alloc, graph)?;
//! plant.feed(source, items, &[])?;
//! plant.close(source)?;
//! let settled = plant.settle(alloc, 1024)?;          // steps of all blocks, until none can act
//! let piece = plant.read(alloc, sink, 0, u64::MAX)?; // what the sink has taken
//! ```
//!
//! A [`Plant`] has no thread and no clock. To decide which block acts, call `step`. To work elsewhere, claim a [`Job`],
//! do it, and commit the result:
//!
//! ```text
//! if let Claim::Claimed(job) = plant.claim(alloc, block, 64)? {
//!     let worked = job.work(); // needs no plant, and may be done on any thread
//!     plant.commit(worked)?;
//! }
//! ```
//!
//! Each call is one of the machine (`stream_model/specs/Machine.antt`): its contract says that the reply and the state
//! after it are the machine's. A refused call changes nothing. `feeds` has the calls that hand something to a block,
//! `claims` and `commits` the firings, `reading` what is shown, `settle` the loop over all blocks, `waits` why a block
//! cannot act, `handed` what is compared when a plant comes back from elsewhere. All are calls of [`Parts`]. A plant
//! that streams is made of these too.
#![tactic(auto)]

pub mod answers;
mod checks;
mod claims;
mod commits;
mod feeds;
mod flight;
pub mod handed;
mod opening;
pub mod parts;
pub mod plant;
mod reading;
mod seen;
pub mod settle;
mod source_tapes;
mod waits;

pub use answers::{Claim, Closed, Did, Fed, Headway, Piece, Settled, SinkView, Step, Taken};
pub use checks::source_type;
pub use claimed_work::{Job, Worked};
pub use firing_rules::{BlockNeed, Need};
pub use flowgraph::{Block, BlockId, Valid};
pub use handed::{Handed, Opening};
pub use parts::Parts;
pub use plant::Plant;
pub use plant_faults::PlantFault;
pub use plant_storage::Stored;
pub use settle::{Unwatched, Watch};
