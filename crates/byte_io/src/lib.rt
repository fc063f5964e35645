//! Where bytes come from and where they go.
//!
//! [`ByteIn`] and [`ByteOut`] count what failed, so that a caller who is told only the end can tell that a read or a
//! write failed before.
#![tactic(auto)]

pub mod ends;

pub use ends::{Broken, ByteIn, ByteOut, ReadEnd, WriteEnd, write_whole};
