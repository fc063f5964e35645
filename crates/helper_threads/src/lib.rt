//! Threads that help a plant that streams: while its caller's thread steps cheap blocks, they do the work of dear ones.
//!
//! ```text
//! let mut helpers = HelperThreads::start(rt, alloc, pipeline.plant.graph())?;
//! let ended = pipeline.run_with(alloc, &mut helpers, &mut Unwatched);
//! helpers.finish();
//! ```
//!
//! The plant stays with the caller. The caller claims firings of a dear block, sends the job, and commits the work that
//! comes back. So no contract mentions these threads: a plant takes back only the work of a claim in flight, whoever
//! brings it. `scheduling::policy` has the whole policy of threads.
#![tactic(auto)]

mod helper_threads;
mod worth;

pub use helper_threads::HelperThreads;
