//! Every second or fourth of some bytes, by lanes: sixteen of them a turn.
ghost use Rattle.std.specs.Prelude.{◌≡◌, ◌≤◌, ◌<◌, ◌+◌, ◌*◌, ◌/◌, ◌%◌, ◌++◌, length, map, pos, vec_len, vec_capacity};
ghost use Rattle.lane_kernels.specs.Streams.{deinterleaved};

use crate::turns::TURN;
use numbers::vectors::append_copies;
use std::simd::prelude::*;

type Block = Simd<u8, 16>;

/// Appends every second or fourth byte, the first of them at place `port`, where the capacity has room. Lanes are
/// stored where zeros were written before, since each of them would be read alone where they are pushed. A caller that
/// names `step` gets code for it.
#[inline(always)]
pub(crate) fn push_lanes(items: &[u8], step: usize, port: usize, made: &mut Vec<u8>)
    requires even { step % 2 ≡ 0 }
    requires most { step ≤ 4 }
    requires port { port < step }
    requires room { vec_len made.old + length items.now / step ≤ vec_capacity made.old }
    ensures items { map pos made.new.items ≡ map pos made.old.items ++ deinterleaved (length items.now / step) step port
        (map pos items.now) }
    ensures capacity { vec_capacity made.old ≤ vec_capacity made.new }
{
    let at = made.len();
    append_copies(made, items.len() / step, 0);
    pick(items, step, port, &mut made[at..]);
}

/// Writes these bytes over `out`.
#[inline(always)]
fn pick(items: &[u8], step: usize, port: usize, out: &mut [u8])
    requires even { step % 2 ≡ 0 }
    requires most { step ≤ 4 }
    requires port { port < step }
    requires there { length out.old * step ≤ length items.now }
    ensures { map pos out.new ≡ deinterleaved (length out.old) step port (map pos items.now) }
{
    for turn in 0..out.len() / TURN {
        let at = turn * TURN;
        let end = at + TURN;
        pick_turn(&items[at * step..end * step], step, port, &mut out[at..end]);
    }
    for k in out.len() / TURN * TURN..out.len() {
        out[k] = items[k * step + port];
    }
}

/// `pick` of a turn.
#[inline(always)]
fn pick_turn(items: &[u8], step: usize, port: usize, out: &mut [u8])
    requires even { step % 2 ≡ 0 }
    requires most { step ≤ 4 }
    requires port { port < step }
    requires turns { length items.now ≡ 16 * step }
    requires one { length out.old ≡ 16 }
    ensures { map pos out.new ≡ deinterleaved 16 step port (map pos items.now) }
{
    let lanes = if step == 2 {
        seconds(items, port)
    } else {
        fourths(items, port)
    };
    lanes.copy_to_slice(out);
}

/// Every second of 32 bytes.
#[inline(always)]
fn seconds(items: &[u8], port: usize) -> Block
    requires port { port < 2 }
    requires two { length items.now ≡ 32 }
    ensures { map pos result ≡ deinterleaved 16 2 port (map pos items.now) }
{
    every_second(
        Block::from_slice(items),
        Block::from_slice(&items[16..]),
        port,
    )
}

/// Every fourth of 64 bytes.
#[inline(always)]
fn fourths(items: &[u8], port: usize) -> Block
    requires port { port < 4 }
    requires four { length items.now ≡ 64 }
    ensures { map pos result ≡ deinterleaved 16 4 port (map pos items.now) }
{
    let first = seconds(&items[..32], port % 2);
    let second = seconds(&items[32..], port % 2);
    every_second(first, second, port / 2)
}

/// Every second lane of two blocks.
#[inline(always)]
fn every_second(first: Block, second: Block, port: usize) -> Block
    requires port { port < 2 }
    requires first { length first ≡ 16 }
    requires second { length second ≡ 16 }
    ensures { map pos result ≡ deinterleaved 16 2 port (map pos (first ++ second)) }
{
    let (even, odd) = first.deinterleave(second);
    if port == 0 { even } else { odd }
}
