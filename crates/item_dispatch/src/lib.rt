//! Work on items of any type, written once over their number types.
#![tactic(auto)]

ghost use Rattle.std.specs.Prelude.{◌≡◌, ◌≤◌, ◌+◌, ◌-◌, ℕ, ℤ, pos, List, [], length, map, vec_len, vec_capacity};
ghost use Rattle.stream_model.specs.declared.vocabulary.ItemType.{ItemType};
ghost use Rattle.stream_model.specs.declared.vocabulary.ItemType.TheVariants.{Byte};
ghost use Rattle.items.specs.Items.{type_of, numbers_of, spare_of};

pub mod appending;
pub mod change;
pub mod inputs;
pub mod sums;

pub use appending::{AppendWork, append_items};
pub use change::{LaneChange, change_items};
pub use inputs::{InputWork, append_inputs};
use items::Items;
use lane_kernels::SimdLane;
use numbers::vectors::append_copies;
pub use sums::sum_of;

/// Work that makes items of some items of the same type.
pub trait LaneWork {
    /// Whether so many items can be made of these.
    ghost can_make: { Self → ItemType → List ℤ → ℕ → Type 0 };

    /// The items that are made.
    ghost makes: { Self → ItemType → List ℤ → ℕ → List ℤ };

    /// Writes them over `out`.
    fn make<T: SimdLane>(&self, items: &[T], out: &mut [T])
        requires { can_make self.now T.kind (map T.number items.now) (length out.old) }
        ensures { map T.number out.new ≡ makes self.now T.kind (map T.number items.now) (length out.old) };
}

/// Writes what the work makes into an empty `out` with room for it.
pub fn make_items<W: LaneWork>(work: &W, items: &Items, count: usize, out: &mut Items)
    requires same_type { type_of items.now ≡ type_of out.old }
    requires empty { numbers_of out.old ≡ [] }
    requires room { count ≤ spare_of out.old }
    requires can { W.can_make work.now (type_of items.now) (numbers_of items.now) count }
    ensures item_type { type_of out.new ≡ type_of out.old }
    ensures numbers { numbers_of out.new ≡ W.makes work.now (type_of items.now) (numbers_of items.now) count }
    ensures room { spare_of out.old ≤ spare_of out.new + length (numbers_of out.new) }
{
    match (items, out) {
        (Items::Byte(items), Items::Byte(out)) => make_lanes(work, items, count, out),
        (Items::Short(items), Items::Short(out)) => make_lanes(work, items, count, out),
        (Items::Int(items), Items::Int(out)) => make_lanes(work, items, count, out),
        _ => unreachable!(),
    }
}

fn make_lanes<T: SimdLane, W: LaneWork>(work: &W, items: &[T], count: usize, out: &mut Vec<T>)
    requires empty { map T.number out.old.items ≡ [] }
    requires room { count ≤ vec_capacity out.old - vec_len out.old }
    requires can { W.can_make work.now T.kind (map T.number items.now) count }
    ensures items { map T.number out.new.items ≡ W.makes work.now T.kind (map T.number items.now) count }
    ensures capacity { vec_capacity out.old ≤ vec_capacity out.new }
{
    append_copies(out, count, T::narrow(0));
    work.make(items, out);
}

/// Work that makes bytes of some bytes.
pub trait ByteWork {
    /// Whether so many bytes can be made of these.
    ghost can_make: { Self → List ℤ → ℕ → Type 0 };

    /// The bytes that are made.
    ghost makes: { Self → List ℤ → ℕ → List ℤ };

    /// Writes them over `out`.
    fn make(&self, items: &[u8], out: &mut [u8])
        requires { can_make self.now (map pos items.now) (length out.old) }
        ensures { map pos out.new ≡ makes self.now (map pos items.now) (length out.old) };
}

/// Writes what the work makes into an empty `out` with room for it.
pub fn make_bytes<W: ByteWork>(work: &W, items: &Items, count: usize, out: &mut Items)
    requires from { type_of items.now ≡ Byte }
    requires to { type_of out.old ≡ Byte }
    requires empty { numbers_of out.old ≡ [] }
    requires room { count ≤ spare_of out.old }
    requires can { W.can_make work.now (numbers_of items.now) count }
    ensures item_type { type_of out.new ≡ Byte }
    ensures numbers { numbers_of out.new ≡ W.makes work.now (numbers_of items.now) count }
    ensures room { spare_of out.old ≤ spare_of out.new + length (numbers_of out.new) }
{
    match (items, out) {
        (Items::Byte(items), Items::Byte(out)) => {
            append_copies(out, count, 0);
            work.make(items, out);
        }
        _ => unreachable!(),
    }
}
