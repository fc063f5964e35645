//! Readers with threads of their own, which read a piece ahead. So a pipeline goes on with the inputs that have
//! something while others are silent.
//!
//! ```text
//! let mut threads = ReaderThreads::new(rt, alloc, pipeline.plant.graph().len())?;
//! pipeline.read_from(alloc, source, order, threads.start(alloc, source, reader)?)?;
//! let ended = pipeline.run_with(alloc, &mut NoHelpers, &mut threads, &mut Unwatched);
//! threads.finish();
//! ```
//!
//! Callers of a box of requests may ring the bell of these threads, so that a wait for readers ends when a request
//! comes.
//!
//! A thread hands on what each read of its reader gave, in order, and reads once more only when that was taken. So the
//! taker gets what the reader gives, and memory is constant. Nothing is known of a thread that waits in a read. It is
//! not waited for, and ends with the program or when the read returns.
#![tactic(auto)]

mod reader_threads;
mod reading;

pub use reader_threads::{ApartReader, ReaderThreads, Taker};
pub use reading::Inputs;
