//! Arithmetic, logic and conversion over slices of items, a block of lanes at a time.
#![tactic(auto)]

mod appending;
pub mod arithmetic;
mod blocks;
mod bytes;
pub mod comparing;
pub mod conversion;
pub mod dividing;
mod ints;
mod joining;
pub mod logic;
mod picking;
mod plain;
mod scaling;
mod shorts;
pub mod simd_lane;
pub mod streams;
mod turns;

pub use arithmetic::{
    add_const_wrap, add_wrap, add_wrap_into, append_add_const_wrap, append_add_wrap,
    append_mul_wrap, append_multiply_wrap, append_scale_sat, append_sub_wrap, mul_wrap,
    multiply_wrap_into, scale_sat, sub_wrap_into,
};
pub use comparing::{
    append_abs_wrap, append_clip, append_maximum, append_minimum, maximum_into, minimum_into,
};
pub use conversion::{NarrowsTo, WidensTo, narrow, widen};
pub use dividing::{append_divide, append_divide_const, divide_into};
pub use logic::{
    AndBits, BitOperation, OrBits, XorBits, append_joined_bits, append_joined_bits_const,
    append_not, join_bits, join_bits_into, not,
};
pub use simd_lane::{MOST_LANES, SimdLane};
pub use streams::{deinterleave, interleave};
