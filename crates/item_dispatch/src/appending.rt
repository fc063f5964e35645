//! Work that appends what it makes, so that nothing stands where it is written.
ghost use Rattle.std.specs.Prelude.{◌≡◌, ◌≤◌, ◌+◌, ℕ, ℤ, List, [], ◌++◌, length, map, vec_len, vec_capacity};
ghost use Rattle.stream_model.specs.declared.vocabulary.ItemType.{ItemType};
ghost use Rattle.items.specs.Items.{type_of, numbers_of, spare_of};

use items::Items;
use lane_kernels::SimdLane;

/// Work that appends items made of some items of the same type.
pub trait AppendWork {
    /// Whether so many items can be made of these.
    ghost can_make: { Self → ItemType → List ℤ → ℕ → Type 0 };

    /// The items that are made.
    ghost makes: { Self → ItemType → List ℤ → ℕ → List ℤ };

    /// Appends them.
    fn append<T: SimdLane>(&self, items: &[T], count: usize, out: &mut Vec<T>)
        requires can { can_make self.now T.kind (map T.number items.now) count }
        requires room { vec_len out.old + count ≤ vec_capacity out.old }
        ensures items { map T.number out.new.items ≡ map T.number out.old.items
            ++ makes self.now T.kind (map T.number items.now) count }
        ensures capacity { vec_capacity out.old ≤ vec_capacity out.new };
}

/// Appends what the work makes to an empty `out` with room for it.
pub fn append_items<W: AppendWork>(work: &W, items: &Items, count: usize, out: &mut Items)
    requires same_type { type_of items.now ≡ type_of out.old }
    requires empty { numbers_of out.old ≡ [] }
    requires room { count ≤ spare_of out.old }
    requires can { W.can_make work.now (type_of items.now) (numbers_of items.now) count }
    ensures item_type { type_of out.new ≡ type_of out.old }
    ensures numbers { numbers_of out.new ≡ W.makes work.now (type_of items.now) (numbers_of items.now) count }
    ensures room { spare_of out.old ≤ spare_of out.new + length (numbers_of out.new) }
{
    match (items, out) {
        (Items::Byte(items), Items::Byte(out)) => work.append(items, count, out),
        (Items::Short(items), Items::Short(out)) => work.append(items, count, out),
        (Items::Int(items), Items::Int(out)) => work.append(items, count, out),
        _ => unreachable!(),
    }
}
