//! The block that puts the items of each frame into another order.
ghost use Rattle.std.specs.Prelude.{◌≡◌, ◌≢◌, ◌≤◌, ℤ, length, map, IfOk, IfErr, IsErrOf, OnOk, IsTrue, ◌↔◌, ◌⊎◌};
ghost use Rattle.std.specs.List.{AllPairs, Contains};
ghost use Rattle.stream_model.specs.Lists.{item, listed};
ghost use Rattle.kind_model.specs.Rates.{IsOrder, from_place, permute};
ghost use Rattle.rate_blocks.specs.Lengths.{unsigned};
ghost use Rattle.rate_blocks.specs.Orders.{ArePlaces};

use block_parameters::{ParamFault, Parameter};
use block_trait::{Batch, Block, ByPace, Held, Shape, Single, ports, work_single};
use item_dispatch::{LaneWork, make_items};
use items::{ItemType, Items};
use lane_kernels::SimdLane;
use numbers::vectors::narrowed;
use std::alloc::Global;

/// The items of each frame in another order: item `order[j]` of a frame goes to place `j` of it. A frame has as many
/// items as the order has places. A tag stays at its place. Block interleavers are made of it, and undone by it; GNU
/// Radio's `patterned_interleaver` takes its items of several streams.
#[derive(Debug, Drop, PartialEq, Eq)]
pub struct Permute {
    item: ItemType,
    order: Vec<u8>,
    ghost is: { IsOrder order.items },
}

// Whether the number stands among these.
fn is_among(number: i64, numbers: &[i64]) -> bool
    ensures { IsTrue result ↔ Contains numbers.now number }
{
    numbers.contains(&number)
}

// Whether no two of the numbers are equal.
fn are_distinct(numbers: &[i64]) -> bool
    ensures { IsTrue result ↔ AllPairs (λ (y z : ℤ). y ≢ z) numbers.now }
{
    for k in 0..numbers.len() {
        if is_among(numbers[k], &numbers[..k]) {
            return false;
        }
    }
    true
}

// Whether these are the places of a frame of up to 256 items in some order.
fn are_places(places: &[i64]) -> bool
    ensures { IsTrue result ↔ ArePlaces places.now }
{
    let count = places.len();
    if count < 1 || 256 < count {
        return false;
    }
    let end = count as i64;
    places.iter().all(|place| 0 <= *place && *place < end) && are_distinct(places)
}

impl Permute {
    ghost use Rattle.rate_blocks.specs.Framed.{permute_of};

    /// The block with a copy of this order. `BadParameter` where it is empty, has more than 256 places, a number that
    /// is no place, or one twice, before any memory is asked for; `Memory` only where the allocator refuses the copy.
    pub fn new(alloc: Global, item: ItemType, places: &[i64]) -> Result<Permute, ParamFault>
        ensures meaning { IfOk result (λ block. permute_of block ≡ permute item (unsigned places.now)) }
        ensures range { OnOk result (ArePlaces places.now) }
        ensures bad { IsErrOf result (ParamFault.BadParameter Parameter.Places) ↔ (¬ ArePlaces places.now) }
        ensures memory { IsErrOf result ParamFault.Memory → ArePlaces places.now }
        ensures err { IfErr result (λ fault. (fault ≡ ParamFault.BadParameter Parameter.Places)
            ⊎ (fault ≡ ParamFault.Memory)) }
    {
        if !are_places(places) {
            return Err(ParamFault::BadParameter(Parameter::Places));
        }
        Ok(Permute {
            item,
            order: narrowed(alloc, places)?,
        })
    }
}

// Some frames, and the order into which their items go.
#[derive(Drop)]
struct Frames<'a> {
    order: &'a [u8],
    count: usize,
}

// Writes the items of a frame in their order.
fn reorder<T: SimdLane>(order: &[u8], items: &[T], out: &mut [T])
    requires order { IsOrder order.now }
    requires taken { length items.now ≡ length order.now }
    requires given { length out.old ≡ length order.now }
    ensures { map T.number out.new ≡ listed (length order.now) (λ j. item (map T.number items.now)
        (from_place order.now j)) }
{
    for j in 0..order.len() {
        out[j] = items[order[j] as usize];
    }
}

impl<'a> LaneWork for Frames<'a> {
    ghost use Rattle.std.specs.Prelude.{◌+◌, ◌*◌, ◌/◌, ◌%◌};

    ghost can_make = { λ b t xs count. IsOrder b.order.now × (length xs ≡ length b.order.now * b.count) × (count ≡ length b.order.now * b.count) };

    ghost makes = { λ b t xs count. listed count (λ k. item xs (k / length b.order.now * length b.order.now + from_place b.order.now (k % length b.order.now))) };

    fn make<T: SimdLane>(&self, items: &[T], out: &mut [T]) {
        let n = self.order.len();
        for k in 0..self.count {
            let at = k * n;
            reorder(self.order, &items[at..at + n], &mut out[at..at + n]);
        }
    }
}

impl Single for Permute {
    ghost use Rattle.std.specs.Prelude.{refl};
    ghost use Rattle.rate_blocks.specs.Framed.{permute_of};

    ghost equation = { permute_of };

    fn fill(&self, batch: &Batch<'_>, out: &mut Items) -> u64 {
        let order = self.order.as_slice();
        let frames = Frames {
            order,
            count: batch.count as usize,
        };
        let total = order.len() as u64 * batch.count;
        make_items(&frames, batch.window, total as usize, out);
        0
    }

    ghost single = { λ b. record { in_least = refl; in_most = refl; out_least = refl; out_most = refl } };
}

impl Block for Permute {
    ghost use Rattle.rate_blocks.specs.Framed.{permute_of, permute_of-lawful, permute_of-same};

    ghost meaning = { permute_of };

    type Places = ByPace;

    fn shape(&self, _input: usize) -> Shape<'_> {
        let n = self.order.len() as u64;
        Shape::at_rate(ports(1, self.item), ports(1, self.item), n, n)
    }

    fn work(
        &self,
        state: u64,
        first: u64,
        count: u64,
        windows: &[Items],
        held: &[Held],
        out: &mut [Items],
    ) -> u64 {
        work_single(self, state, first, count, windows, held, out)
    }

    ghost lawful = { permute_of-lawful };

    ghost same = { permute_of-same };
}
