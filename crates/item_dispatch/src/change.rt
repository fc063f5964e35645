//! Work that changes items in place by others of the same type.
ghost use Rattle.std.specs.Prelude.{◌≡◌, ℤ, List, length, map};
ghost use Rattle.items.specs.Items.{type_of, numbers_of, spare_of};

use items::Items;
use lane_kernels::SimdLane;

/// Work that writes over some of the items by others of the same type.
pub trait LaneChange {
    /// Whether the first items can be written over the second.
    ghost can_change: { Self → List ℤ → List ℤ → Type 0 };

    /// What the second items become.
    ghost changes: { Self → List ℤ → List ℤ → List ℤ → Type 0 };

    /// Changes `out` by `items`.
    fn change<T: SimdLane>(&self, items: &[T], out: &mut [T])
        requires { can_change self.now (map T.number items.now) (map T.number out.old) }
        ensures { changes self.now (map T.number items.now) (map T.number out.old) (map T.number out.new) };
}

/// Changes `out` by items of the same type.
pub fn change_items<W: LaneChange>(work: &W, items: &Items, out: &mut Items)
    requires same_type { type_of items.now ≡ type_of out.old }
    requires can { W.can_change work.now (numbers_of items.now) (numbers_of out.old) }
    ensures item_type { type_of out.new ≡ type_of out.old }
    ensures same_length { length (numbers_of out.new) ≡ length (numbers_of out.old) }
    ensures room { spare_of out.new ≡ spare_of out.old }
    ensures numbers { W.changes work.now (numbers_of items.now) (numbers_of out.old) (numbers_of out.new) }
{
    match (items, out) {
        (Items::Byte(items), Items::Byte(out)) => work.change(items, out),
        (Items::Short(items), Items::Short(out)) => work.change(items, out),
        (Items::Int(items), Items::Int(out)) => work.change(items, out),
        _ => unreachable!(),
    }
}
