//! The block that gives each item `n` times.
ghost use Rattle.std.specs.Prelude.{◌≡◌, ◌≤◌, ◌+◌, ◌*◌, ◌++◌, length, map, replicate, vec_len, vec_capacity};
ghost use Rattle.rate_blocks.specs.Repeats.{repeated};

use crate::counted::Counted;
use crate::counting::Counting;
use block_trait::{Batch, Shape, ports};
use item_dispatch::{AppendWork, append_items};
use items::{ItemType, Items};
use lane_kernels::SimdLane;
use std::mem;

/// Each item `n` times, as GNU Radio's `repeat`.
pub type Repeat = Counted<Copies>;

/// Each item `n` times, 1 to 1,024.
#[derive(Drop)]
pub struct Copies {
    n: u64,
    ghost some: { 1 ≤ n },
}

impl AppendWork for Copies {
    ghost use Rattle.std.specs.Prelude.{◌*◌, ◌/◌, length};
    ghost use Rattle.stream_model.specs.Lists.{item, listed};

    ghost can_make = { λ b t xs count. count ≡ b.n * length xs };

    ghost makes = { λ b t xs count. listed count (λ k. item xs (k / b.n)) };

    fn append<T: SimdLane>(&self, items: &[T], _count: usize, out: &mut Vec<T>) {
        repeat_each(items, self.n as usize, out);
    }
}

// Appends each item `n` times, where the capacity has room. The loop appends to a vector of its own, whose length and
// place in memory stay in registers then.
fn repeat_each<T: SimdLane>(items: &[T], n: usize, out: &mut Vec<T>)
    requires some { 1 ≤ n }
    requires room { vec_len out.old + n * length items.now ≤ vec_capacity out.old }
    ensures items { map T.number out.new.items ≡ map T.number out.old.items
        ++ repeated n (map T.number items.now) (length items.now) }
    ensures capacity { vec_capacity out.old ≤ vec_capacity out.new }
{
    let alloc = *out.allocator();
    let mut made = mem::replace(out, Vec::new(alloc));
    match n {
        2 => push_each(items, 2, &mut made),
        3 => push_each(items, 3, &mut made),
        4 => push_each(items, 4, &mut made),
        5 => push_each(items, 5, &mut made),
        6 => push_each(items, 6, &mut made),
        7 => push_each(items, 7, &mut made),
        8 => push_each(items, 8, &mut made),
        16 => push_each(items, 16, &mut made),
        _ => push_each(items, n, &mut made),
    }
    *out = made;
}

// Repeats each item `n` times. A caller that names `n` gets code for it.
#[inline(always)]
fn push_each<T: SimdLane>(items: &[T], n: usize, made: &mut Vec<T>)
    requires some { 1 ≤ n }
    requires room { vec_len made.old + n * length items.now ≤ vec_capacity made.old }
    ensures items { map T.number made.new.items ≡ map T.number made.old.items
        ++ repeated n (map T.number items.now) (length items.now) }
    ensures capacity { vec_capacity made.new ≡ vec_capacity made.old }
{
    for at in 0..items.len() {
        push_copies(items[at], n, made);
    }
}

// Appends `n` copies of an item.
#[inline(always)]
fn push_copies<T: SimdLane>(item: T, n: usize, made: &mut Vec<T>)
    requires { vec_len made.old + n ≤ vec_capacity made.old }
    ensures items { made.new.items ≡ made.old.items ++ replicate n item }
    ensures len { vec_len made.new ≡ vec_len made.old + n }
    ensures capacity { vec_capacity made.new ≡ vec_capacity made.old }
{
    for _copy in 0..n {
        made.push_reserved(item);
    }
}

impl Counting for Copies {
    ghost use Rattle.std.specs.Prelude.{refl};
    ghost use Rattle.kind_laws.specs.Rates.{repeat-lawful};
    ghost use Rattle.kind_model.specs.Rates.{repeat};

    ghost equation = { repeat };

    ghost LEAST = { 1 };

    ghost MOST = { 1024 };

    const LEAST: u64 = 1;

    const MOST: u64 = 1_024;

    fn shape<'a>(item: ItemType, n: u64) -> Shape<'a> {
        Shape::at_rate(ports(1, item), ports(1, item), 1, n)
    }

    fn fill(_item: ItemType, n: u64, batch: &Batch<'_>, out: &mut Items) {
        append_items(&Copies { n }, batch.window, (n * batch.count) as usize, out);
    }

    ghost plain = { λ _ _ _. refl };

    ghost lawful = { repeat-lawful };
}
