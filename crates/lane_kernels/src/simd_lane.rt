//! What a number type has so that a block of its items is worked on at once.
ghost use Rattle.std.specs.Prelude.{◌≡◌, ℕ, ◌+◌, ◌/◌, ◌<◌, ◌≤◌, ◌++◌, length, map, vec_len, vec_capacity, ◌+ℤ◌, ◌*ℤ◌, bit_and, bit_or, bit_xor};
ghost use Rattle.std.specs.Simd.Lanes.{zip2};
ghost use Rattle.std.specs.Mem.{type_size};
ghost use Rattle.stream_model.specs.Numbers.{wrap};
ghost use Rattle.kind_model.specs.Kernels.{scaled, bits_joined, turned};
ghost use Rattle.lane_kernels.specs.Blocks.{IsBlock};
ghost use Rattle.lane_kernels.specs.Streams.{deinterleaved};
ghost use Rattle.lane_kernels.specs.declared.simd_lane.TheConstants.{MOST_LANES};

use numbers::Number;

/// No block has more items.
pub const MOST_LANES: usize = 16;

/// A number type of items with operations on blocks of them. A block is a register of 16 bytes.
pub trait SimdLane: Number {
    /// How many items a block has.
    ghost LANES: { ℕ };

    const LANES: usize;

    /// How many items are scaled at once: their products are wider than they are.
    ghost SCALED_LANES: { ℕ };

    const SCALED_LANES: usize;

    /// The sums, wrapped.
    fn add_block(a: &[Self], b: &[Self], out: &mut [Self])
        requires a_block { IsBlock Self.LANES Self.kind Self.number a.now }
        requires b_block { IsBlock Self.LANES Self.kind Self.number b.now }
        requires out_block { length out.old ≡ Self.LANES }
        ensures { map Self.number out.new ≡
            zip2 (λ x y. wrap Self.kind (x +ℤ y)) (map Self.number a.now) (map Self.number b.now) };

    /// The sums with `c`, wrapped.
    fn add_const_block(a: &[Self], c: Self, out: &mut [Self])
        requires a_block { IsBlock Self.LANES Self.kind Self.number a.now }
        requires out_block { length out.old ≡ Self.LANES }
        ensures { map Self.number out.new ≡
            map (λ x. wrap Self.kind (x +ℤ Self.number c)) (map Self.number a.now) };

    /// The products with `c`, wrapped.
    fn mul_block(a: &[Self], c: Self, out: &mut [Self])
        requires a_block { IsBlock Self.LANES Self.kind Self.number a.now }
        requires out_block { length out.old ≡ Self.LANES }
        ensures { map Self.number out.new ≡
            map (λ x. wrap Self.kind (x *ℤ Self.number c)) (map Self.number a.now) };

    /// The products, wrapped.
    fn mul_items_block(a: &[Self], b: &[Self], out: &mut [Self])
        requires a_block { IsBlock Self.LANES Self.kind Self.number a.now }
        requires b_block { IsBlock Self.LANES Self.kind Self.number b.now }
        requires out_block { length out.old ≡ Self.LANES }
        ensures { map Self.number out.new ≡
            zip2 (λ x y. wrap Self.kind (x *ℤ y)) (map Self.number a.now) (map Self.number b.now) };

    /// The bits that both have.
    fn and_block(a: &[Self], b: &[Self], out: &mut [Self])
        requires a_block { IsBlock Self.LANES Self.kind Self.number a.now }
        requires b_block { IsBlock Self.LANES Self.kind Self.number b.now }
        requires out_block { length out.old ≡ Self.LANES }
        ensures { map Self.number out.new ≡
            zip2 (bits_joined bit_and Self.kind) (map Self.number a.now) (map Self.number b.now) };

    /// The bits that either has.
    fn or_block(a: &[Self], b: &[Self], out: &mut [Self])
        requires a_block { IsBlock Self.LANES Self.kind Self.number a.now }
        requires b_block { IsBlock Self.LANES Self.kind Self.number b.now }
        requires out_block { length out.old ≡ Self.LANES }
        ensures { map Self.number out.new ≡
            zip2 (bits_joined bit_or Self.kind) (map Self.number a.now) (map Self.number b.now) };

    /// The bits that one has alone.
    fn xor_block(a: &[Self], b: &[Self], out: &mut [Self])
        requires a_block { IsBlock Self.LANES Self.kind Self.number a.now }
        requires b_block { IsBlock Self.LANES Self.kind Self.number b.now }
        requires out_block { length out.old ≡ Self.LANES }
        ensures { map Self.number out.new ≡
            zip2 (bits_joined bit_xor Self.kind) (map Self.number a.now) (map Self.number b.now) };

    /// The bits, all turned.
    fn not_block(a: &[Self], out: &mut [Self])
        requires a_block { IsBlock Self.LANES Self.kind Self.number a.now }
        requires out_block { length out.old ≡ Self.LANES }
        ensures { map Self.number out.new ≡ map (turned Self.kind) (map Self.number a.now) };

    /// The products with `factor`, over 2 to the power of `shift`, rounded and saturated.
    fn scale_block(a: &[Self], factor: i16, shift: u32, out: &mut [Self])
        requires in_range { shift ≤ 31 }
        requires a_block { IsBlock Self.SCALED_LANES Self.kind Self.number a.now }
        requires out_block { length out.old ≡ Self.SCALED_LANES }
        ensures { map Self.number out.new ≡
            map (scaled Self.kind factor shift) (map Self.number a.now) };

    /// Appends every second item, the first of them at place `port`, where the capacity has room.
    fn push_seconds(items: &[Self], port: usize, made: &mut Vec<Self>)
        requires port { port < 2 }
        requires room { vec_len made.old + length items.now / 2 ≤ vec_capacity made.old }
        ensures items { map Self.number made.new.items
            ≡ map Self.number made.old.items ++ deinterleaved (length items.now / 2) 2 port
            (map Self.number items.now) }
        ensures capacity { vec_capacity made.old ≤ vec_capacity made.new };

    /// Appends every fourth item, the first of them at place `port`, where the capacity has room.
    fn push_fourths(items: &[Self], port: usize, made: &mut Vec<Self>)
        requires port { port < 4 }
        requires room { vec_len made.old + length items.now / 4 ≤ vec_capacity made.old }
        ensures items { map Self.number made.new.items
            ≡ map Self.number made.old.items ++ deinterleaved (length items.now / 4) 4 port
            (map Self.number items.now) }
        ensures capacity { vec_capacity made.old ≤ vec_capacity made.new };

    /// A block has an item.
    ghost has_lane: { 0 < LANES };

    ghost has_few_lanes: { LANES ≤ MOST_LANES };

    ghost scales_some: { 0 < SCALED_LANES };

    ghost scales_few: { SCALED_LANES ≤ MOST_LANES };

    /// An item takes few bytes, so that a block of them is in memory.
    ghost is_small: { type_size Self.row ≤ 4 };
}
