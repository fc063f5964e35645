//! The reading of graph files.
//!
//! ```text
//! let file = read_graph(alloc, text)?;           // the document: blocks, connections, feeds
//! let (graph, feeds) = file.validate(alloc)?;    // tested as a graph
//! ```
//!
//! The crate `file_plants` opens plants of a file. A refused file gives a [`FileFault`]: a number, a name and the
//! place. The contract of [`read_graph`] says which of several causes is reported, and that all other files are
//! accepted.
//! `blocks`, `connections` and `feeds` read the tables, [`kind_schema`] makes a block of a table, and `only` refuses
//! keys that a table may not have. A fault takes no memory; so its text is a
//! [`RefusalText`](refusal_codes::RefusalText).
#![tactic(auto)]

mod blocks;
mod connections;
pub mod fault;
pub mod feed;
mod feeds;
pub mod file;
mod only;
mod texts;
mod validating;

pub use fault::{FileFault, FilePlace};
pub use feed::{Feed, FileMark};
pub use file::{File, read_blocks, read_graph};
