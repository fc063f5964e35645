//! Blocks of ints.
ghost use Rattle.std.proofs.Common.{rules};

use crate::SimdLane;
use crate::scaling::scaled_wide;
use crate::streams::push_each;
use std::simd::prelude::*;

type Block = Simd<i32, 8>;

/// Products have lanes of 64 bits.
type ScaledBlock = Simd<i32, 4>;

impl SimdLane for i32 {
    ghost LANES = { 8 };

    const LANES: usize = 8;

    ghost SCALED_LANES = { 4 };

    const SCALED_LANES: usize = 4;

    fn add_block(a: &[i32], b: &[i32], out: &mut [i32]) {
        (Block::from_slice(a) + Block::from_slice(b)).copy_to_slice(out);
    }

    fn add_const_block(a: &[i32], c: i32, out: &mut [i32]) {
        (Block::from_slice(a) + Block::splat(c)).copy_to_slice(out);
    }

    fn mul_block(a: &[i32], c: i32, out: &mut [i32]) {
        (Block::from_slice(a) * Block::splat(c)).copy_to_slice(out);
    }

    fn mul_items_block(a: &[i32], b: &[i32], out: &mut [i32]) {
        (Block::from_slice(a) * Block::from_slice(b)).copy_to_slice(out);
    }

    fn and_block(a: &[i32], b: &[i32], out: &mut [i32]) {
        (Block::from_slice(a) & Block::from_slice(b)).copy_to_slice(out);
    }

    fn or_block(a: &[i32], b: &[i32], out: &mut [i32]) {
        (Block::from_slice(a) | Block::from_slice(b)).copy_to_slice(out);
    }

    fn xor_block(a: &[i32], b: &[i32], out: &mut [i32]) {
        (Block::from_slice(a) ^ Block::from_slice(b)).copy_to_slice(out);
    }

    fn not_block(a: &[i32], out: &mut [i32]) {
        (!Block::from_slice(a)).copy_to_slice(out);
    }

    fn scale_block(a: &[i32], factor: i16, shift: u32, out: &mut [i32]) {
        let factors = Simd::splat(i64::from(factor));
        let products = ScaledBlock::from_slice(a).cast::<i64>() * factors;
        scaled_wide(products, shift, -2147483648, 2147483647)
            .cast::<i32>()
            .copy_to_slice(out);
    }

    fn push_seconds(items: &[i32], port: usize, made: &mut Vec<i32>) {
        push_each(items, items.len() / 2, 2, port, made);
    }

    fn push_fourths(items: &[i32], port: usize, made: &mut Vec<i32>) {
        push_each(items, items.len() / 4, 4, port, made);
    }

    ghost has_lane = { Prim.search rules };

    ghost has_few_lanes = { Prim.search rules };

    ghost scales_some = { Prim.search rules };

    ghost scales_few = { Prim.search rules };

    ghost is_small = { Prim.search rules };
}
