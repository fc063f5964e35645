//! Worked rows of the kinds: what a block by itself gives on whole inputs, at once
//! and cut into single firings.

pub mod bits;
pub mod codes;
pub mod filters;
pub mod math;
pub mod rates;
pub mod trellis;
