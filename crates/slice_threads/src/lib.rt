//! Slices of a run on several threads.
//!
//! The tapes of the sources are cut into pieces of so many iterations. A free thread takes the next piece: it reads the
//! piece with the overlap before it, runs a slice on it, and writes the result after all pieces before it are written.
//! One thread reads at a time, and one writes. So what was written is a beginning of the streams at any time, and bytes
//! stay with the thread that read them.
//!
//! ```text
//! let left = run_slices(rt, alloc, openers, job, tapes, outlet, &mut watch)?;
//! ```
//!
//! A piece is cut only if every source has all its iterations, and all marks on them are known. The rest of the tapes
//! is the caller's. A run on what the feeds still hold, and on what their readers give, continues the streams.
#![tactic(auto)]

mod crew;
mod desk;
pub mod feed;
pub mod feeds;
pub mod marks;
pub mod piece;
pub mod reading;
pub mod room;
mod running;
mod supply;
pub mod turn;
pub mod unread;

pub use feed::{Feed, Stride};
pub use feeds::{Cutting, Feeds};
pub use marks::Marks;
pub use piece::{Given, Job, Opens, Piece, Share, Tape};
pub use reading::Readers;
pub use room::Room;
pub use running::{Left, Tapes, run_slices};
pub use turn::Outlet;
pub use unread::Unread;
