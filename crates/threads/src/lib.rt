//! Runs of a plant in threads, which claim, work and commit until it comes to rest, and what it holds then.
//!
//! ```text
//! let running = launch_with(rt, alloc, plant, RunOptions::default())?; // in as many threads as the work is worth
//! match running.wait(&rt)? {
//!     Outcome::Done(plant) => ..,    // each sink has its whole stream
//!     Outcome::Stalled(plant) => .., // no block can act, and not all are done
//!     Outcome::Stopped(plant) => .., // a stop was asked for
//! }
//! ```
//!
//! - [`launch_with`], [`run_with`] and [`live_with`] take [`RunOptions`]: whether each block has a thread, how long a
//!   turn is, and a gate. [`launch`], [`run`] and [`live`] have a worker for each block.
//! - In `live`, callers at desks make calls while the blocks work. It returns the history of all calls, which
//!   `call_history` records.
//! - `scheduling` decides who acts: whom the progress of a block wakes, and what is worth a thread.
//!
//! One lock guards the plant. Each call of it there is one call of `Locked`, whose contract is exact. At each turn a
//! worker takes the lock once: it commits what it did and claims anew. Then it works without the lock. Of what a lock
//! holds, a contract knows only the type; so what comes out is compared with what was handed in. So the contracts say
//! what a plant holds at the end, for every schedule.
#![tactic(auto)]

mod adaptive;
mod alone;
mod calling;
pub mod desk;
mod desks;
mod errands;
pub mod fault;
pub mod gated_watch;
mod launching;
mod live_crew;
mod live_rooms;
mod locked;
mod locked_calls;
pub mod outcome;
mod pauses;
mod pool_threads;
mod prepared;
pub mod running;
mod shared;
mod worker;

pub use call_history::{Answer, Call, CallerId, Entry, Feed, Setting};
pub use calling::{Finished, live, live_with};
pub use desk::{Caller, Desk};
pub use fault::{RunError, RunFault};
pub use gated_watch::GatedWatch;
pub use launching::{launch, launch_with};
pub use outcome::Outcome;
pub use running::{Running, run, run_with};
pub use scheduling::{Gate, Open, RunOptions, Threading, Turns};
