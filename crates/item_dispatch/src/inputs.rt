//! Work on the items of several inputs of one type.
ghost use Rattle.std.specs.Prelude.{◌≡◌, ◌+◌, ◌≤◌, ℕ, ℤ, List, [], ◌++◌, All, length, map, take, vec_len, vec_capacity};
ghost use Rattle.stream_model.specs.declared.vocabulary.ItemType.{ItemType};
ghost use Rattle.stream_model.specs.Lists.{below};
ghost use Rattle.stream_model.specs.Meaning.{input};
ghost use Rattle.items.specs.Items.{type_of, numbers_of, spare_of};

use items::Items;
use lane_kernels::SimdLane;

/// A number type whose items can be told from items of any type.
trait Typed: SimdLane {
    /// The items as numbers of this type.
    fn slice_of(items: &Items) -> &[Self]
        requires { type_of items.now ≡ Self.kind }
        ensures { map Self.number result.now ≡ numbers_of items.now };
}

impl Typed for u8 {
    fn slice_of(items: &Items) -> &[u8] {
        match items {
            Items::Byte(items) => items,
            _ => unreachable!(),
        }
    }
}

impl Typed for i16 {
    fn slice_of(items: &Items) -> &[i16] {
        match items {
            Items::Short(items) => items,
            _ => unreachable!(),
        }
    }
}

impl Typed for i32 {
    fn slice_of(items: &Items) -> &[i32] {
        match items {
            Items::Int(items) => items,
            _ => unreachable!(),
        }
    }
}

/// Work that appends items made of the items of several inputs.
pub trait InputWork {
    /// Whether so many items can be made of these, those of each input.
    ghost can_make: { Self → ItemType → List (List ℤ) → ℕ → Type 0 };

    /// The items that are made.
    ghost makes: { Self → ItemType → List (List ℤ) → ℕ → List ℤ };

    /// Appends them.
    fn append<T: SimdLane>(&self, inputs: &[&[T]], count: usize, out: &mut Vec<T>)
        requires can { can_make self.now T.kind (map (λ x. map T.number x.now) inputs.now) count }
        requires room { vec_len out.old + count ≤ vec_capacity out.old }
        ensures items { map T.number out.new.items ≡ map T.number out.old.items
            ++ makes self.now T.kind (map (λ x. map T.number x.now) inputs.now) count }
        ensures capacity { vec_capacity out.old ≤ vec_capacity out.new };
}

/// Appends what the work makes of the inputs to an empty `out` with room for it.
pub fn append_inputs<W: InputWork>(work: &W, inputs: &[Items], count: usize, out: &mut Items)
    requires few { length inputs.now ≤ 16 }
    requires same_type { All (λ w. type_of w ≡ type_of out.old) inputs.now }
    requires empty { numbers_of out.old ≡ [] }
    requires room { count ≤ spare_of out.old }
    requires can { W.can_make work.now (type_of out.old) (map numbers_of inputs.now) count }
    ensures item_type { type_of out.new ≡ type_of out.old }
    ensures numbers { numbers_of out.new ≡ W.makes work.now (type_of out.old) (map numbers_of inputs.now) count }
    ensures room { spare_of out.old ≤ spare_of out.new + length (numbers_of out.new) }
{
    match out {
        Items::Byte(out) => append_typed(work, inputs, count, out),
        Items::Short(out) => append_typed(work, inputs, count, out),
        Items::Int(out) => append_typed(work, inputs, count, out),
    }
}

fn append_typed<T: Typed, W: InputWork>(work: &W, inputs: &[Items], count: usize, out: &mut Vec<T>)
    requires few { length inputs.now ≤ 16 }
    requires same_type { All (λ w. type_of w ≡ T.kind) inputs.now }
    requires empty { map T.number out.old.items ≡ [] }
    requires room { vec_len out.old + count ≤ vec_capacity out.old }
    requires can { W.can_make work.now T.kind (map numbers_of inputs.now) count }
    ensures items { map T.number out.new.items ≡ W.makes work.now T.kind (map numbers_of inputs.now) count }
    ensures capacity { vec_capacity out.old ≤ vec_capacity out.new }
{
    let typed = typed_inputs(inputs);
    work.append(&typed[..inputs.len()], count, out);
}

/// The items of so many inputs, none where there is no input.
fn typed_inputs<'a, T: Typed>(inputs: &'a [Items]) -> [&'a [T]; 16]
    requires { All (λ w. type_of w ≡ T.kind) inputs.now }
    ensures { map (λ x. map T.number x.now) result ≡ map (input (map numbers_of inputs.now)) (below 16) }
{
    [
        typed_input(inputs, 0),
        typed_input(inputs, 1),
        typed_input(inputs, 2),
        typed_input(inputs, 3),
        typed_input(inputs, 4),
        typed_input(inputs, 5),
        typed_input(inputs, 6),
        typed_input(inputs, 7),
        typed_input(inputs, 8),
        typed_input(inputs, 9),
        typed_input(inputs, 10),
        typed_input(inputs, 11),
        typed_input(inputs, 12),
        typed_input(inputs, 13),
        typed_input(inputs, 14),
        typed_input(inputs, 15),
    ]
}

/// The items of an input, none of an input that is not there.
fn typed_input<'a, T: Typed>(inputs: &'a [Items], port: usize) -> &'a [T]
    requires { All (λ w. type_of w ≡ T.kind) inputs.now }
    ensures { map T.number result.now ≡ input (map numbers_of inputs.now) port }
{
    match inputs.get(port) {
        Some(items) => T::slice_of(items),
        None => &[],
    }
}
