//! The lowest bits of items as one stream of bits, cut into items another way.
ghost use Rattle.std.specs.Prelude.{◌≡◌, ◌≤◌, ◌<◌, ◌+◌, ◌-◌, ◌*◌, ◌^◌, [], length, map, vec_len, vec_capacity};
ghost use Rattle.stream_model.specs.Numbers.{residue};
ghost use Rattle.kind_model.specs.BitStreams.{repack};
ghost use Rattle.lane_filters.specs.Streams.{joined, front, behind, reordered};
ghost use Rattle.kind_model.specs.declared.vocabulary.BitOrder.TheVariants.{MsbFirst, LsbFirst};

use kind_model::BitOrder;
use numbers::Number;
use numbers::vectors::append_copies;

/// Appends to an empty `out` with room for them so many items, each of the next `l` bits in the order `write` of the
/// stream that the `k` lowest bits of each item make in the order `read`.
pub fn append_repacked<T: Number>(
    k: u32,
    l: u32,
    read: BitOrder,
    write: BitOrder,
    items: &[T],
    count: usize,
    out: &mut Vec<T>,
)
    requires some { 1 ≤ k }
    requires few { k ≤ 32 }
    requires given { 1 ≤ l }
    requires not_many { l ≤ 32 }
    requires lengths { count * l ≡ length items.now * k }
    requires empty { map T.number out.old.items ≡ [] }
    requires room { count ≤ vec_capacity out.old - vec_len out.old }
    ensures items { map T.number out.new.items ≡ repack T.kind k l read write (map T.number items.now) count }
    ensures capacity { vec_capacity out.old ≤ vec_capacity out.new }
{
    append_copies(out, count, T::narrow(0));
    repack_items(k, l, read, write, items, out);
}

/// Writes such items over `out`.
pub fn repack_items<T: Number>(
    k: u32,
    l: u32,
    read: BitOrder,
    write: BitOrder,
    items: &[T],
    out: &mut [T],
)
    requires some { 1 ≤ k }
    requires few { k ≤ 32 }
    requires given { 1 ≤ l }
    requires not_many { l ≤ 32 }
    requires lengths { length out.old * l ≡ length items.now * k }
    ensures { map T.number out.new ≡ repack T.kind k l read write (map T.number items.now) (length out.old) }
{
    // The compiler makes a loop for each two orders.
    match (read, write) {
        (BitOrder::MsbFirst, BitOrder::MsbFirst) => {
            repack_by(k, l, BitOrder::MsbFirst, BitOrder::MsbFirst, items, out);
        }
        (BitOrder::LsbFirst, BitOrder::LsbFirst) => {
            repack_by(k, l, BitOrder::LsbFirst, BitOrder::LsbFirst, items, out);
        }
        (BitOrder::LsbFirst, BitOrder::MsbFirst) => {
            repack_by(k, l, BitOrder::LsbFirst, BitOrder::MsbFirst, items, out);
        }
        (BitOrder::MsbFirst, BitOrder::LsbFirst) => {
            repack_by(k, l, BitOrder::MsbFirst, BitOrder::LsbFirst, items, out);
        }
    }
}

/// Repacks through a word that holds the bits that are read and not yet written.
#[inline(always)]
fn repack_by<T: Number>(k: u32, l: u32, read: BitOrder, write: BitOrder, items: &[T], out: &mut [T])
    requires some { 1 ≤ k }
    requires few { k ≤ 32 }
    requires given { 1 ≤ l }
    requires not_many { l ≤ 32 }
    requires lengths { length out.old * l ≡ length items.now * k }
    ensures { map T.number out.new ≡ repack T.kind k l read write (map T.number items.now) (length out.old) }
{
    let mut word = 0;
    let mut held = 0;
    let mut taken = 0;
    for n in 0..out.len() {
        while held < l {
            let bits = reordered(read, write, k, low_bits(items[taken], k));
            word = join(write, held, word, k, bits);
            held += k;
            taken += 1;
        }
        held -= l;
        let (first, rest) = split(write, l, held, word);
        out[n] = T::wrap(first.cast_signed());
        word = rest;
    }
}

/// The number of the lowest `k` bits.
#[inline(always)]
fn low_bits<T: Number>(item: T, k: u32) -> u64
    requires { k ≤ 32 }
    ensures { result ≡ residue (T.number item) (2 ^ k) }
{
    item.widen().cast_unsigned() % (1 << k)
}

/// The number that has in one order the bits that a number has in another.
#[inline(always)]
fn reordered(read: BitOrder, write: BitOrder, count: u32, bits: u64) -> u64
    requires few { count ≤ 32 }
    requires small { bits < 2 ^ count }
    ensures { result ≡ reordered read write count bits }
{
    if read == write {
        return bits;
    }
    turned(count, bits)
}

/// The number with so many bits in reverse.
#[inline(always)]
fn turned(count: u32, bits: u64) -> u64
    requires { count ≤ 32 }
    ensures { result ≡ reordered LsbFirst MsbFirst count bits }
{
    let mut turned = 0;
    for place in 0..count {
        turned = 2 * turned + (bits >> place) % 2;
    }
    turned
}

/// The number of some bits and more bits behind them.
#[inline(always)]
fn join(order: BitOrder, held: u32, word: u64, k: u32, more: u64) -> u64
    requires fits { held + k ≤ 63 }
    requires word { word < 2 ^ held }
    requires more { more < 2 ^ k }
    ensures { result ≡ joined order held word k more }
{
    match order {
        BitOrder::MsbFirst => (word << k) + more,
        BitOrder::LsbFirst => word + (more << held),
    }
}

/// The numbers of the first `l` of some bits, and of the bits behind them.
#[inline(always)]
fn split(order: BitOrder, l: u32, rest: u32, word: u64) -> (u64, u64)
    requires fits { l + rest ≤ 63 }
    ensures first { result.0 ≡ front order l rest word }
    ensures rest { result.1 ≡ behind order l rest word }
{
    match order {
        BitOrder::MsbFirst => (word >> rest, word % (1 << rest)),
        BitOrder::LsbFirst => (word % (1 << l), word >> l),
    }
}
