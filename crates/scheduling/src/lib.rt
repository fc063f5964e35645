//! Which block acts next, and in which thread. It is policy: nothing that a sink shows depends on it, and contracts say
//! little of it.
//!
//! - [`RunOptions`] say whether each block has a thread ([`Threading`]), how long a turn is ([`Turns`]), and which
//!   [`Gate`] is told of turns.
//! - With a thread for each block, `waiting` decides whose progress wakes which worker.
//! - A run in as many threads as the work is worth goes by `policy`, a page to read. `rounds` says when it splits,
//!   `habit` what is heavy, and `pool` whom it calls. A [`Crew`](crew::Crew) is one or the other.
#![tactic(auto)]

pub mod crew;
pub mod gate;
pub mod habit;
pub mod number_set;
pub mod policy;
pub mod pool;
pub mod rounds;
pub mod run_options;
pub mod stopwatch;
pub mod turns;
pub mod waiting;
pub mod woken;

pub use gate::{Gate, Open};
pub use run_options::{RunOptions, Threading};
pub use turns::Turns;
pub use waiting::share_of;
