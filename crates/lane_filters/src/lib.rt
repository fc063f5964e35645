//! Dots, filters, packed bits and differences over slices of items, several lanes at a time.
#![tactic(auto)]

pub mod bits;
pub mod differences;
pub mod dots;
pub mod filter_lane;
pub mod fir;
mod halves;
mod ints;
mod pairs;
pub mod repacked;
mod sums;

pub use bits::{pack_bits, unpack_bits};
pub use differences::diff_decode;
pub use dots::{dot_i16, dot_i32};
pub use filter_lane::{FilterLane, ProductLane};
pub use fir::fir_row;
pub use repacked::{append_repacked, repack_items};
