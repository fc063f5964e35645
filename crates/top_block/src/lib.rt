//! The top block: a graph of kinds that is fed, and runs in threads to its end.
//!
//! ```text
//! let mut top = TopBlock::from_graph(alloc, graph)?;
//! top.feed(source, items, &marks)?;
//! let outcome = top.run(rt, alloc)?;       // closes all sources, runs, and waits
//! ```
//!
//! A [`TopBlock`] is for users of GNU Radio: `run` is `start` and `wait`. Both close the sources, since a run ends when
//! nothing more can come. `run_live` leaves them open, for callers that feed meanwhile. To call single blocks, use the
//! plant that the run returns.
#![tactic(auto)]

pub mod top;

pub use closing::close_all;
pub use top::TopBlock;
