//! Streams whose items take turns. A loop appends to a vector of its own, whose length and place in memory stay in
//! registers then.
ghost use Rattle.std.specs.Prelude.{◌≡◌, ◌≤◌, ◌<◌, ◌+◌, ◌*◌, ◌/◌, ◌∷◌, [], ◌++◌, All, length, map, vec_len, vec_capacity};
ghost use Rattle.stream_model.specs.Lists.{item};
ghost use Rattle.lane_kernels.specs.Streams.{interleaved, deinterleaved};

use crate::SimdLane;
use numbers::Number;
use std::mem;

/// Appends the items of the streams, one of each in turn, where the capacity has room.
pub fn interleave<T: Number>(streams: &[&[T]], rounds: usize, out: &mut Vec<T>)
    requires same_length { All (λ s. length s.now ≡ rounds) streams.now }
    requires room { vec_len out.old + length streams.now * rounds ≤ vec_capacity out.old }
    ensures items { map T.number out.new.items ≡ map T.number out.old.items
        ++ interleaved rounds (map (λ s. map T.number s.now) streams.now) }
    ensures capacity { vec_capacity out.old ≤ vec_capacity out.new }
{
    let alloc = *out.allocator();
    let mut made = mem::replace(out, Vec::new(alloc));
    push_streams(streams, rounds, &mut made);
    *out = made;
}

/// `interleave` to a vector of the caller's own, by code for some numbers of streams.
#[inline(always)]
fn push_streams<T: Number>(streams: &[&[T]], rounds: usize, made: &mut Vec<T>)
    requires same_length { All (λ s. length s.now ≡ rounds) streams.now }
    requires room { vec_len made.old + length streams.now * rounds ≤ vec_capacity made.old }
    ensures items { map T.number made.new.items ≡ map T.number made.old.items
        ++ interleaved rounds (map (λ s. map T.number s.now) streams.now) }
    ensures capacity { vec_capacity made.new ≡ vec_capacity made.old }
{
    match streams {
        [a, b] => push_rounds(&[*a, *b], rounds, made),
        [a, b, c] => push_rounds(&[*a, *b, *c], rounds, made),
        [a, b, c, d] => push_rounds(&[*a, *b, *c, *d], rounds, made),
        [a, b, c, d, e, f, g, h] => { push_rounds(&[*a, *b, *c, *d, *e, *f, *g, *h], rounds, made) }
        _ => push_rounds(streams, rounds, made),
    }
}

/// `interleave` round by round. A caller that has the streams in an array gets code for their number.
#[inline(always)]
fn push_rounds<T: Number>(streams: &[&[T]], rounds: usize, made: &mut Vec<T>)
    requires same_length { All (λ s. length s.now ≡ rounds) streams.now }
    requires room { vec_len made.old + length streams.now * rounds ≤ vec_capacity made.old }
    ensures items { map T.number made.new.items ≡ map T.number made.old.items
        ++ interleaved rounds (map (λ s. map T.number s.now) streams.now) }
    ensures capacity { vec_capacity made.new ≡ vec_capacity made.old }
{
    for round in 0..rounds {
        push_round(streams, round, made);
    }
}

/// Appends one item of each stream.
#[inline(always)]
fn push_round<T: Number>(streams: &[&[T]], round: usize, made: &mut Vec<T>)
    requires within { All (λ s. round < length s.now) streams.now }
    requires room { vec_len made.old + length streams.now ≤ vec_capacity made.old }
    ensures items { map T.number made.new.items ≡ map T.number made.old.items
        ++ map (λ s. item (map T.number s.now) round) streams.now }
    ensures len { vec_len made.new ≡ vec_len made.old + length streams.now }
    ensures capacity { vec_capacity made.new ≡ vec_capacity made.old }
{
    for port in 0..streams.len() {
        let stream = streams[port];
        made.push_reserved(stream[round]);
    }
}

/// Appends the items of one of so many streams that took turns, where the capacity has room.
pub fn deinterleave<T: SimdLane>(items: &[T], streams: usize, port: usize, out: &mut Vec<T>)
    requires port { port < streams }
    requires room { vec_len out.old + length items.now / streams ≤ vec_capacity out.old }
    ensures items { map T.number out.new.items ≡ map T.number out.old.items
        ++ deinterleaved (length items.now / streams) streams port (map T.number items.now) }
    ensures capacity { vec_capacity out.old ≤ vec_capacity out.new }
{
    let alloc = *out.allocator();
    let mut made = mem::replace(out, Vec::new(alloc));
    let count = items.len() / streams;
    match streams {
        2 => T::push_seconds(items, port, &mut made),
        3 => push_each(items, count, 3, port, &mut made),
        4 => T::push_fourths(items, port, &mut made),
        8 => push_each(items, count, 8, port, &mut made),
        _ => push_each(items, count, streams, port, &mut made),
    }
    *out = made;
}

/// Appends so many items, each of them `step` places behind the one before, the first at `port`. A caller that names
/// `step` gets code for it.
#[inline(always)]
pub(crate) fn push_each<T: Number>(
    items: &[T],
    count: usize,
    step: usize,
    port: usize,
    made: &mut Vec<T>,
)
    requires port { port < step }
    requires there { count * step ≤ length items.now }
    requires room { vec_len made.old + count ≤ vec_capacity made.old }
    ensures items { map T.number made.new.items ≡ map T.number made.old.items
        ++ deinterleaved count step port (map T.number items.now) }
    ensures capacity { vec_capacity made.new ≡ vec_capacity made.old }
{
    for k in 0..count {
        made.push_reserved(items[k * step + port]);
    }
}
