//! Numbers of one type and their bytes.
ghost use Rattle.std.specs.Prelude.{◌≡◌, ◌+◌, ◌*◌, ◌≤◌, ◌++◌, All, length, map, take, OnOk, OnErr, IsOk, vec_len, vec_capacity};
ghost use Rattle.stream_model.specs.Numbers.{IsItem};
ghost use Rattle.raw_items.specs.Layout.{size_of, count_of};
ghost use Rattle.raw_items.specs.Values.{item_of, items_of, all_bytes_of};

use crate::ByteOrder;
use crate::raw_number::RawNumber;
use numbers::vectors::append_copies;
use std::alloc::AllocError;

/// Appends the numbers that the bytes are, as many as are whole.
pub(crate) fn push_numbers<const N: usize, T: RawNumber<N>>(
    out: &mut Vec<T>,
    bytes: &[u8],
    order: ByteOrder,
)
    requires { vec_len out.old + count_of T.kind bytes.now ≤ vec_capacity out.old }
    ensures items { map T.number out.new.items ≡ map T.number out.old.items ++ items_of T.kind order bytes.now }
    ensures len { vec_len out.new ≡ vec_len out.old + count_of T.kind bytes.now }
    ensures capacity { vec_capacity out.old ≤ vec_capacity out.new }
{
    let (parts, _cut) = bytes.as_chunks::<N>();
    let start = out.len();
    append_copies(out, parts.len(), T::from_bytes(&[0; N], order));
    write_numbers(parts, order, &mut out[start..]);
}

// A loop over a slice, which nothing makes longer, so that the compiler takes many parts a turn.
fn write_numbers<const N: usize, T: RawNumber<N>>(
    parts: &[[u8; N]],
    order: ByteOrder,
    out: &mut [T],
)
    requires { length out.old ≡ length parts.now }
    ensures { map T.number out.new ≡ map (item_of T.kind order) parts.now }
{
    for (i, part) in parts.iter().enumerate() {
        out[i] = T::from_bytes(part, order);
    }
}

/// Appends the bytes of the numbers.
pub(crate) fn push_number_bytes<const N: usize, T: RawNumber<N>>(
    out: &mut Vec<u8>,
    numbers: &[T],
    order: ByteOrder,
) -> Result<(), AllocError>
    ensures bytes { OnOk result (out.new.items ≡ out.old.items ++ all_bytes_of T.kind order
        (map T.number numbers.now)) }
    ensures len { OnOk result (vec_len out.new ≡ vec_len out.old + length numbers.now * size_of T.kind) }
    ensures round_trip { OnOk result (items_of T.kind order (all_bytes_of T.kind order (map T.number numbers.now))
        ≡ map T.number numbers.now) }
    ensures err { OnErr result (out.new.items ≡ out.old.items) }
    ensures capacity { vec_capacity out.old ≤ vec_capacity out.new }
    ensures succeeds { vec_len out.old + length numbers.now * size_of T.kind ≤ vec_capacity out.old → IsOk result }
{
    let start = out.len();
    let more = numbers.len().saturating_mul(N);
    out.reserve(more)?;
    append_copies(out, more, 0);
    write_bytes(numbers, order, &mut out[start..]);
    Ok(())
}

// Writes the bytes of the numbers into a slice, which has room for them.
fn write_bytes<const N: usize, T: RawNumber<N>>(numbers: &[T], order: ByteOrder, out: &mut [u8])
    requires { length out.old ≡ length numbers.now * N }
    ensures bytes { out.new ≡ all_bytes_of T.kind order (map T.number numbers.now) }
    ensures in_range { All (λ x. IsItem T.kind (T.number x)) numbers.now }
{
    for (i, number) in numbers.iter().enumerate() {
        write_at(out, i * N, &number.to_bytes(order));
    }
}

/// Writes the bytes at the place.
pub(crate) fn write_at(out: &mut [u8], place: usize, bytes: &[u8])
    requires { place + length bytes.now ≤ length out.old }
    ensures { take (place + length bytes.now) out.new ≡ take place out.old ++ bytes.now }
{
    out[place..place + bytes.len()].copy_from_slice(bytes);
}
