//! Vectors of one number type.
ghost use Rattle.std.specs.Prelude.{◌≡◌, ◌+◌, ◌≤◌, ◌++◌, [], length, replicate, map, All, IfOk, IsOk, vec_len, vec_capacity};
ghost use Rattle.stream_model.specs.Numbers.{IsItem};

use crate::Number;
use std::alloc::{AllocError, Global};

/// The numbers, each in the range of the type.
pub fn narrowed<T: Number>(alloc: Global, numbers: &[i64]) -> Result<Vec<T>, AllocError>
    requires { All (IsItem T.kind) numbers.now }
    ensures value { IfOk result (λ v. map T.number v.items ≡ numbers.now) }
    ensures nothing { numbers.now ≡ [] → IsOk result }
{
    let mut narrow = Vec::with_capacity(alloc, numbers.len())?;
    for n in numbers {
        narrow.push_reserved(T::narrow(*n));
    }
    Ok(narrow)
}

/// The same elements in memory of their own.
pub fn copied<T: Copy>(alloc: Global, items: &[T]) -> Result<Vec<T>, AllocError>
    ensures items { IfOk result (λ v. v.items ≡ items.now) }
    ensures nothing { items.now ≡ [] → IsOk result }
{
    let mut copy = Vec::with_capacity(alloc, items.len())?;
    append(&mut copy, items);
    Ok(copy)
}

/// Each element is in the range of its type, which a proof knows of an element that it reads.
pub fn are_in_range<T: Number>(numbers: &[T])
    ensures { All (λ x. IsItem T.kind (T.number x)) numbers.now }
{
    for x in numbers {
        let _read = x.widen();
    }
}

/// Appends `more` where the capacity has room.
pub fn append<T: Copy>(out: &mut Vec<T>, more: &[T])
    requires { vec_len out.old + length more.now ≤ vec_capacity out.old }
    ensures items { out.new.items ≡ out.old.items ++ more.now }
    ensures len { vec_len out.new ≡ vec_len out.old + length more.now }
    ensures capacity { vec_capacity out.old ≤ vec_capacity out.new }
{
    match out.extend_from_slice(more) {
        Ok(()) => {}
        Err(_refusal) => unreachable!(),
    }
}

/// Appends `n` copies of `x` where the capacity has room.
pub fn append_copies<T: Copy>(out: &mut Vec<T>, n: usize, x: T)
    requires { vec_len out.old + n ≤ vec_capacity out.old }
    ensures items { out.new.items ≡ out.old.items ++ replicate n x }
    ensures len { vec_len out.new ≡ vec_len out.old + n }
    ensures capacity { vec_capacity out.old ≤ vec_capacity out.new }
{
    match out.resize(out.len() + n, x) {
        Ok(()) => {}
        Err(_refusal) => unreachable!(),
    }
}
