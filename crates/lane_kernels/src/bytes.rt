//! Blocks of bytes.
ghost use Rattle.std.proofs.Common.{rules};

use crate::SimdLane;
use crate::picking::push_lanes;
use crate::scaling::scaled;
use std::simd::prelude::*;

type Block = Simd<u8, 16>;

impl SimdLane for u8 {
    ghost LANES = { 16 };

    const LANES: usize = 16;

    ghost SCALED_LANES = { 16 };

    const SCALED_LANES: usize = 16;

    fn add_block(a: &[u8], b: &[u8], out: &mut [u8]) {
        (Block::from_slice(a) + Block::from_slice(b)).copy_to_slice(out);
    }

    fn add_const_block(a: &[u8], c: u8, out: &mut [u8]) {
        (Block::from_slice(a) + Block::splat(c)).copy_to_slice(out);
    }

    fn mul_block(a: &[u8], c: u8, out: &mut [u8]) {
        (Block::from_slice(a) * Block::splat(c)).copy_to_slice(out);
    }

    fn mul_items_block(a: &[u8], b: &[u8], out: &mut [u8]) {
        (Block::from_slice(a) * Block::from_slice(b)).copy_to_slice(out);
    }

    fn and_block(a: &[u8], b: &[u8], out: &mut [u8]) {
        (Block::from_slice(a) & Block::from_slice(b)).copy_to_slice(out);
    }

    fn or_block(a: &[u8], b: &[u8], out: &mut [u8]) {
        (Block::from_slice(a) | Block::from_slice(b)).copy_to_slice(out);
    }

    fn xor_block(a: &[u8], b: &[u8], out: &mut [u8]) {
        (Block::from_slice(a) ^ Block::from_slice(b)).copy_to_slice(out);
    }

    fn not_block(a: &[u8], out: &mut [u8]) {
        (!Block::from_slice(a)).copy_to_slice(out);
    }

    fn scale_block(a: &[u8], factor: i16, shift: u32, out: &mut [u8]) {
        let factors = Simd::splat(i32::from(factor));
        let products = Block::from_slice(a).cast::<i32>() * factors;
        scaled(products, shift, 0, 255)
            .cast::<u8>()
            .copy_to_slice(out);
    }

    fn push_seconds(items: &[u8], port: usize, made: &mut Vec<u8>) {
        push_lanes(items, 2, port, made);
    }

    fn push_fourths(items: &[u8], port: usize, made: &mut Vec<u8>) {
        push_lanes(items, 4, port, made);
    }

    ghost has_lane = { Prim.search rules };

    ghost has_few_lanes = { Prim.search rules };

    ghost scales_some = { Prim.search rules };

    ghost scales_few = { Prim.search rules };

    ghost is_small = { Prim.search rules };
}
