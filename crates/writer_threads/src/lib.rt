//! Writers with threads of their own, which write a piece behind. So a pipeline goes on with the outputs that are taken
//! while others are full.
//!
//! ```text
//! let mut threads = WriterThreads::new(rt, alloc, pipeline.plant.graph().len(), bell)?;
//! let items_to = threads.start(alloc, sink, Lane::Items, writer)?;
//! pipeline.write_to(alloc, sink, order, Some(items_to), None)?;
//! let ended = pipeline.run_with(alloc, &mut NoHelpers, &mut readiness, &mut Unwatched);
//! let written = threads.finish();
//! ```
//!
//! A `Readiness` of the pipeline asks `takes`, closes the writers of a sink that `ends`, and its wait ends when the bell
//! rings.
//!
//! A thread writes what each write gave it, in order, and takes the next piece while it writes one. So the writer gets
//! what is given, and memory is constant. A failure is told by the next call, or by `finish`, and nothing is written
//! behind it. The thread begins with a flush, so that a writer may leave what waits, as opening a pipe, to its first
//! call.
#![tactic(auto)]

mod writer_threads;
mod writing;

pub use writer_threads::{ApartWriter, Giver, Lane, WriterThreads};
