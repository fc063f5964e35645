//! Blocks that make a byte of each item.
ghost use Rattle.std.specs.Prelude.{◌≡◌, ◌≤◌, ◌+◌, ◌-◌, ℤ, pos, true, [], length, map, vec_len, vec_capacity};
ghost use Rattle.stream_model.specs.declared.vocabulary.ItemType.{ItemType};
ghost use Rattle.stream_model.specs.declared.vocabulary.ItemType.TheVariants as types;
ghost use Rattle.stream_model.specs.Lists.{item, listed};
ghost use Rattle.stream_model.specs.Meaning.{Meaning, IsLawful};
ghost use Rattle.items.specs.Items.{type_of, numbers_of, spare_of};
ghost use Rattle.block_trait.specs.Fill.{CanFill, HasFilled};
ghost use Rattle.math_blocks.specs.ToBytes.{bytes_of};

use block_trait::{Batch, Block, ByPace, Held, Shape, Single, work_single};
use items::{ItemType, Items};
use numbers::Number;
use numbers::vectors::append_copies;

/// How a byte is made of an item.
pub trait MakesByte: Eq + Drop {
    /// The type of the items.
    ghost takes: { Self → ItemType };

    /// The byte that is made of an item.
    ghost gives: { Self → ℤ → ℤ };

    /// What a block means that makes bytes so.
    ghost equation: { Self → Meaning };

    /// The type of the items.
    fn item(&self) -> ItemType
        ensures { result ≡ takes self.now };

    /// The byte of an item.
    fn byte_of<T: Number>(&self, item: T) -> u8
        ensures { pos result ≡ gives self.now (T.number item) };

    /// The equation says what is made of each item.
    ghost is_made: { (m : Self) → bytes_of (takes m) (gives m) ≡ equation m };

    /// The equation keeps the laws.
    ghost lawful: { (m : Self) → IsLawful (equation m) };

    /// What is equal makes the same.
    ghost same: { (m n : Self) → Self.Eq.eq m n ≡ true → equation m ≡ equation n };
}

/// A block that makes a byte of each item.
#[derive(Debug, Drop, PartialEq, Eq)]
pub struct ToBytes<M> {
    pub(crate) makes: M,
}

// An item as an `i32`, which holds each of them. Lanes of 32 bits are twice as many as those of an `i64`.
#[inline(always)]
pub(crate) fn int_of<T: Number>(item: T) -> i32
    ensures { result ≡ T.number item }
{
    item.widen() as i32
}

// Writes the byte of each item over `out`.
fn write_bytes<T: Number, M: MakesByte>(makes: &M, items: &[T], out: &mut [u8])
    requires { length out.old ≡ length items.now }
    ensures { map pos out.new ≡ listed (length out.old) (λ k. M.gives makes.now (item (map T.number items.now) k)) }
{
    for k in 0..out.len() {
        out[k] = makes.byte_of(items[k]);
    }
}

// Writes the byte of each item into an empty `out` with room for them.
fn append_bytes<T: Number, M: MakesByte>(makes: &M, items: &[T], out: &mut Vec<u8>)
    requires empty { map pos out.old.items ≡ [] }
    requires room { length items.now ≤ vec_capacity out.old - vec_len out.old }
    ensures items { map pos out.new.items ≡ listed (length items.now)
        (λ k. M.gives makes.now (item (map T.number items.now) k)) }
    ensures capacity { vec_capacity out.old ≤ vec_capacity out.new }
{
    append_copies(out, items.len(), 0);
    write_bytes(makes, items, out);
}

// Gives the byte of each item, at the type of the items.
fn give_bytes<M: MakesByte>(makes: &M, items: &Items, out: &mut Items)
    requires bytes { type_of out.old ≡ types.Byte }
    requires empty { numbers_of out.old ≡ [] }
    requires room { length (numbers_of items.now) ≤ spare_of out.old }
    ensures item_type { type_of out.new ≡ type_of out.old }
    ensures numbers { numbers_of out.new ≡ listed (length (numbers_of items.now))
        (λ k. M.gives makes.now (item (numbers_of items.now) k)) }
    ensures room { spare_of out.old ≤ spare_of out.new + length (numbers_of out.new) }
{
    match (items, out) {
        (Items::Byte(items), Items::Byte(out)) => append_bytes::<u8, M>(makes, items, out),
        (Items::Short(items), Items::Byte(out)) => append_bytes::<i16, M>(makes, items, out),
        (Items::Int(items), Items::Byte(out)) => append_bytes::<i32, M>(makes, items, out),
        _ => unreachable!(),
    }
}

// What `fill` writes.
fn fill_bytes<M: MakesByte>(block: &ToBytes<M>, batch: &Batch<'_>, out: &mut Items)
    requires { CanFill (bytes_of (M.takes block.now.makes) (M.gives block.now.makes)) batch.now out.old }
    ensures items { HasFilled (bytes_of (M.takes block.now.makes) (M.gives block.now.makes)) batch.now out.new }
    ensures item_type { type_of out.new ≡ type_of out.old }
    ensures room { spare_of out.old ≤ spare_of out.new + length (numbers_of out.new) }
{
    give_bytes(&block.makes, batch.window, out);
}

impl<M: MakesByte> Single for ToBytes<M> {
    ghost use Rattle.math_blocks.specs.ToBytes.{bytes-single};

    ghost equation = { λ b. M.equation b.makes };

    fn fill(&self, batch: &Batch<'_>, out: &mut Items) -> u64 {
        fill_bytes(self, batch, out);
        0
    }

    ghost single = { λ b. bytes-single (M.takes b.makes) (M.gives b.makes) (M.is_made b.makes) };
}

impl<M: MakesByte> Block for ToBytes<M> {
    ghost meaning = { λ b. M.equation b.makes };

    type Places = ByPace;

    fn shape(&self, _input: usize) -> Shape<'_> {
        Shape::sync(self.makes.item(), ItemType::Byte)
    }

    fn work(
        &self,
        state: u64,
        first: u64,
        count: u64,
        windows: &[Items],
        held: &[Held],
        out: &mut [Items],
    ) -> u64 {
        work_single(self, state, first, count, windows, held, out)
    }

    ghost lawful = { λ b. M.lawful b.makes };

    ghost same = { λ a b. M.same a.makes b.makes };
}
