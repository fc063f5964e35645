//! Blocks that filter with taps.
#![tactic(auto)]

pub mod filter;
mod filter_rate;
pub mod fir;
mod first_bad;
pub mod interp_fir;
mod polyphase;
mod stretch;
mod tap_lane;

pub use filter::Filter;
pub use fir::Fir;
pub use interp_fir::InterpFir;
