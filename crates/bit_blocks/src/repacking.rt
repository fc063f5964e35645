//! Blocks that cut a stream of bits another way.
ghost use Rattle.std.specs.Prelude.{◌≡◌, ◌≤◌, ◌+◌, ◌*◌, ◌/◌, [], length};
ghost use Rattle.stream_model.specs.Numbers.{bits_of};
ghost use Rattle.items.specs.Items.{type_of, numbers_of, spare_of};
ghost use Rattle.kind_model.specs.BitStreams.{repack, repacking, common_divisor};

use block_trait::{Batch, Block, ByPace, Held, Shape, Single, ports, work_single};
use items::{ItemType, Items};
use kind_model::BitOrder;
use lane_filters::append_repacked;
use std::marker::PhantomData;

/// How many bits an item has.
pub(crate) fn width_of(item: ItemType) -> u32
    ensures { result ≡ bits_of item }
{
    match item {
        ItemType::Byte => 8,
        ItemType::Short => 16,
        ItemType::Int => 32,
    }
}

/// The greatest number that divides both.
fn greatest_divisor(a: u32, b: u32) -> u32
    requires { 1 ≤ a }
    ensures value { result ≡ common_divisor a b }
    ensures some { 1 ≤ result }
{
    let mut divisor = a;
    while a % divisor != 0 || b % divisor != 0 {
        divisor -= 1;
    }
    divisor
}

/// A block that goes from the lowest `from` bits of each item, in the order `read`, to items of `to` bits in the order
/// `write`. `K` says which kind it is, since each is made of other parameters.
#[derive(Drop)]
#[derive_where(Debug, PartialEq, Eq)]
pub struct Repacking<K> {
    item: ItemType,
    from: u32,
    to: u32,
    // The order of the bits in an item that is taken, and in one that is given.
    read: BitOrder,
    write: BitOrder,
    // How many items a firing takes, and how many it gives.
    taken: u64,
    given: u64,
    #[derive_where(skip)]
    kind: PhantomData<K>,
    ghost some: { 1 ≤ from },
    ghost few: { from ≤ 32 },
    ghost some_given: { 1 ≤ to },
    ghost few_given: { to ≤ 32 },
    ghost takes: { taken ≡ to / common_divisor from to },
    ghost gives: { given ≡ from / common_divisor from to },
}

impl<K> Repacking<K> {
    ghost use Rattle.bit_blocks.specs.Kinds.{repacking_of};

    /// From the lowest `from` bits of each item to items of `to` bits.
    pub(crate) fn of_widths(
        item: ItemType,
        from: u32,
        to: u32,
        read: BitOrder,
        write: BitOrder,
    ) -> Repacking<K>
        requires some { 1 ≤ from }
        requires few { from ≤ 32 }
        requires some_given { 1 ≤ to }
        requires few_given { to ≤ 32 }
        ensures { repacking_of result ≡ repacking item from to read write }
    {
        let divisor = greatest_divisor(from, to);
        Repacking {
            item,
            from,
            to,
            read,
            write,
            taken: u64::from(to / divisor),
            given: u64::from(from / divisor),
            kind: PhantomData,
        }
    }

    // Appends so many items to an empty `out` with room for them.
    fn append(&self, items: &Items, count: usize, out: &mut Items)
        requires from { type_of items.now ≡ self.now.item }
        requires to { type_of out.old ≡ self.now.item }
        requires lengths { count * self.now.to ≡ length (numbers_of items.now) * self.now.from }
        requires empty { numbers_of out.old ≡ [] }
        requires room { count ≤ spare_of out.old }
        ensures item_type { type_of out.new ≡ type_of out.old }
        ensures numbers { numbers_of out.new ≡ repack self.now.item self.now.from self.now.to self.now.read
            self.now.write (numbers_of items.now) count }
        ensures room { spare_of out.old ≤ spare_of out.new + length (numbers_of out.new) }
    {
        let (from, to) = (self.from, self.to);
        let (read, write) = (self.read, self.write);
        match (items, out) {
            (Items::Byte(items), Items::Byte(out)) => {
                append_repacked(from, to, read, write, items, count, out);
            }
            (Items::Short(items), Items::Short(out)) => {
                append_repacked(from, to, read, write, items, count, out);
            }
            (Items::Int(items), Items::Int(out)) => {
                append_repacked(from, to, read, write, items, count, out);
            }
            _ => unreachable!(),
        }
    }
}

impl<K> Single for Repacking<K> {
    ghost use Rattle.std.specs.Prelude.{refl};
    ghost use Rattle.bit_blocks.specs.Kinds.{repacking_of};

    ghost equation = { repacking_of };

    fn fill(&self, batch: &Batch<'_>, out: &mut Items) -> u64 {
        self.append(batch.window, (self.given * batch.count) as usize, out);
        0
    }

    ghost single = { λ b. record { in_least = refl; in_most = refl; out_least = refl; out_most = refl } };
}

impl<K: Drop> Block for Repacking<K> {
    ghost use Rattle.bit_blocks.specs.Kinds.{repacking_of, repacking_of-lawful, repacking_of-same};

    ghost meaning = { repacking_of };

    type Places = ByPace;

    fn shape(&self, _input: usize) -> Shape<'_> {
        let items = ports(1, self.item);
        Shape::at_rate(items, items, self.taken, self.given)
    }

    fn work(
        &self,
        state: u64,
        first: u64,
        count: u64,
        windows: &[Items],
        held: &[Held],
        out: &mut [Items],
    ) -> u64 {
        work_single(self, state, first, count, windows, held, out)
    }

    ghost lawful = { repacking_of-lawful };

    ghost same = { repacking_of-same };
}
