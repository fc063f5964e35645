//! Blocks of shorts.
ghost use Rattle.std.proofs.Common.{rules};

use crate::SimdLane;
use crate::scaling::scaled;
use crate::streams::push_each;
use std::simd::prelude::*;

type Block = Simd<i16, 16>;

impl SimdLane for i16 {
    ghost LANES = { 16 };

    const LANES: usize = 16;

    ghost SCALED_LANES = { 16 };

    const SCALED_LANES: usize = 16;

    fn add_block(a: &[i16], b: &[i16], out: &mut [i16]) {
        (Block::from_slice(a) + Block::from_slice(b)).copy_to_slice(out);
    }

    fn add_const_block(a: &[i16], c: i16, out: &mut [i16]) {
        (Block::from_slice(a) + Block::splat(c)).copy_to_slice(out);
    }

    fn mul_block(a: &[i16], c: i16, out: &mut [i16]) {
        (Block::from_slice(a) * Block::splat(c)).copy_to_slice(out);
    }

    fn mul_items_block(a: &[i16], b: &[i16], out: &mut [i16]) {
        (Block::from_slice(a) * Block::from_slice(b)).copy_to_slice(out);
    }

    fn and_block(a: &[i16], b: &[i16], out: &mut [i16]) {
        (Block::from_slice(a) & Block::from_slice(b)).copy_to_slice(out);
    }

    fn or_block(a: &[i16], b: &[i16], out: &mut [i16]) {
        (Block::from_slice(a) | Block::from_slice(b)).copy_to_slice(out);
    }

    fn xor_block(a: &[i16], b: &[i16], out: &mut [i16]) {
        (Block::from_slice(a) ^ Block::from_slice(b)).copy_to_slice(out);
    }

    fn not_block(a: &[i16], out: &mut [i16]) {
        (!Block::from_slice(a)).copy_to_slice(out);
    }

    fn scale_block(a: &[i16], factor: i16, shift: u32, out: &mut [i16]) {
        let factors = Simd::splat(i32::from(factor));
        let items: Simd<i16, 16> = Simd::from_slice(a);
        let products = items.cast::<i32>() * factors;
        scaled(products, shift, -32768, 32767)
            .cast::<i16>()
            .copy_to_slice(out);
    }

    fn push_seconds(items: &[i16], port: usize, made: &mut Vec<i16>) {
        push_each(items, items.len() / 2, 2, port, made);
    }

    fn push_fourths(items: &[i16], port: usize, made: &mut Vec<i16>) {
        push_each(items, items.len() / 4, 4, port, made);
    }

    ghost has_lane = { Prim.search rules };

    ghost has_few_lanes = { Prim.search rules };

    ghost scales_some = { Prim.search rules };

    ghost scales_few = { Prim.search rules };

    ghost is_small = { Prim.search rules };
}
