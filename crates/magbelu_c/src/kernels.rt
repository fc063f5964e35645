//! Kernels over slices. Each answers 0. If the slices differ in length, it answers 57 and writes nothing.

ghost use Rattle.std.specs.Prelude.{◌≡◌, ◌↔◌, length, map, pos, IsTrue};
ghost use Rattle.kind_model.specs.Kernels.{add_wrap, add_const_wrap, mul_wrap, and_bits, or_bits, xor_bits};
ghost use Rattle.stream_model.specs.declared.vocabulary.ItemType.TheVariants.{Byte, Short, Int};
ghost use Rattle.magbelu_c.specs.Kernels.{AreAlike, IsAlike, Makes};

use lane_kernels::{AndBits, OrBits, XorBits, join_bits};

// The refusal number for slices that differ in length.
const LENGTHS: u32 = 57;

// Runs a kernel if its slices have one length, and gives the call's answer.
macro_rules! where_alike {
    ($alike:expr, $kernel:expr) => {
        if $alike {
            $kernel;
            0
        } else {
            LENGTHS
        }
    };
}

// Whether all slices have one length.
fn are_alike<T>(a: &[T], b: &[T], out: &[T]) -> bool
    ensures { IsTrue result ↔ AreAlike a.now b.now out.now }
{
    a.len() == b.len() && out.len() == a.len()
}

/// Adds the shorts of two slices. A sum out of range wraps.
#[unsafe(no_mangle)]
pub extern "C" fn magbelu_kernel_add_shorts(a: &[i16], b: &[i16], out: &mut [i16]) -> u32
    ensures { Makes (AreAlike a.now b.now out.old) (out.new ≡ add_wrap Short a.now b.now) out.old out.new result }
{
    where_alike!(are_alike(a, b, out), lane_kernels::add_wrap(a, b, out))
}

/// Adds a number to each of the shorts, wrapping.
#[unsafe(no_mangle)]
pub extern "C" fn magbelu_kernel_add_number_shorts(a: &[i16], number: i16, out: &mut [i16]) -> u32
    ensures { Makes (IsAlike a.now out.old) (out.new ≡ add_const_wrap Short a.now number) out.old out.new result }
{
    where_alike!(
        out.len() == a.len(),
        lane_kernels::add_const_wrap(a, number, out)
    )
}

/// Multiplies each of the shorts by a number, wrapping.
#[unsafe(no_mangle)]
pub extern "C" fn magbelu_kernel_multiply_shorts(a: &[i16], number: i16, out: &mut [i16]) -> u32
    ensures { Makes (IsAlike a.now out.old) (out.new ≡ mul_wrap Short a.now number) out.old out.new result }
{
    where_alike!(out.len() == a.len(), lane_kernels::mul_wrap(a, number, out))
}

/// Adds the ints of two slices. A sum out of range wraps.
#[unsafe(no_mangle)]
pub extern "C" fn magbelu_kernel_add_ints(a: &[i32], b: &[i32], out: &mut [i32]) -> u32
    ensures { Makes (AreAlike a.now b.now out.old) (out.new ≡ add_wrap Int a.now b.now) out.old out.new result }
{
    where_alike!(are_alike(a, b, out), lane_kernels::add_wrap(a, b, out))
}

/// Adds a number to each of the ints, wrapping.
#[unsafe(no_mangle)]
pub extern "C" fn magbelu_kernel_add_number_ints(a: &[i32], number: i32, out: &mut [i32]) -> u32
    ensures { Makes (IsAlike a.now out.old) (out.new ≡ add_const_wrap Int a.now number) out.old out.new result }
{
    where_alike!(
        out.len() == a.len(),
        lane_kernels::add_const_wrap(a, number, out)
    )
}

/// Multiplies each of the ints by a number, wrapping.
#[unsafe(no_mangle)]
pub extern "C" fn magbelu_kernel_multiply_ints(a: &[i32], number: i32, out: &mut [i32]) -> u32
    ensures { Makes (IsAlike a.now out.old) (out.new ≡ mul_wrap Int a.now number) out.old out.new result }
{
    where_alike!(out.len() == a.len(), lane_kernels::mul_wrap(a, number, out))
}

/// The bits that both of two bytes have.
#[unsafe(no_mangle)]
pub extern "C" fn magbelu_kernel_and_bytes(a: &[u8], b: &[u8], out: &mut [u8]) -> u32
    ensures { Makes (AreAlike a.now b.now out.old) (map pos out.new ≡ and_bits Byte (map pos a.now) (map pos b.now))
        out.old out.new result }
{
    where_alike!(are_alike(a, b, out), join_bits::<u8, AndBits>(a, b, out))
}

/// The bits that either of two bytes has.
#[unsafe(no_mangle)]
pub extern "C" fn magbelu_kernel_or_bytes(a: &[u8], b: &[u8], out: &mut [u8]) -> u32
    ensures { Makes (AreAlike a.now b.now out.old) (map pos out.new ≡ or_bits Byte (map pos a.now) (map pos b.now))
        out.old out.new result }
{
    where_alike!(are_alike(a, b, out), join_bits::<u8, OrBits>(a, b, out))
}

/// The bits that one of two bytes has alone.
#[unsafe(no_mangle)]
pub extern "C" fn magbelu_kernel_xor_bytes(a: &[u8], b: &[u8], out: &mut [u8]) -> u32
    ensures { Makes (AreAlike a.now b.now out.old) (map pos out.new ≡ xor_bits Byte (map pos a.now) (map pos b.now))
        out.old out.new result }
{
    where_alike!(are_alike(a, b, out), join_bits::<u8, XorBits>(a, b, out))
}

/// The bits that both of two shorts have.
#[unsafe(no_mangle)]
pub extern "C" fn magbelu_kernel_and_shorts(a: &[i16], b: &[i16], out: &mut [i16]) -> u32
    ensures { Makes (AreAlike a.now b.now out.old) (out.new ≡ and_bits Short a.now b.now) out.old out.new result }
{
    where_alike!(are_alike(a, b, out), join_bits::<i16, AndBits>(a, b, out))
}

/// The bits that either of two shorts has.
#[unsafe(no_mangle)]
pub extern "C" fn magbelu_kernel_or_shorts(a: &[i16], b: &[i16], out: &mut [i16]) -> u32
    ensures { Makes (AreAlike a.now b.now out.old) (out.new ≡ or_bits Short a.now b.now) out.old out.new result }
{
    where_alike!(are_alike(a, b, out), join_bits::<i16, OrBits>(a, b, out))
}

/// The bits that one of two shorts has alone.
#[unsafe(no_mangle)]
pub extern "C" fn magbelu_kernel_xor_shorts(a: &[i16], b: &[i16], out: &mut [i16]) -> u32
    ensures { Makes (AreAlike a.now b.now out.old) (out.new ≡ xor_bits Short a.now b.now) out.old out.new result }
{
    where_alike!(are_alike(a, b, out), join_bits::<i16, XorBits>(a, b, out))
}

/// The bits that both of two ints have.
#[unsafe(no_mangle)]
pub extern "C" fn magbelu_kernel_and_ints(a: &[i32], b: &[i32], out: &mut [i32]) -> u32
    ensures { Makes (AreAlike a.now b.now out.old) (out.new ≡ and_bits Int a.now b.now) out.old out.new result }
{
    where_alike!(are_alike(a, b, out), join_bits::<i32, AndBits>(a, b, out))
}

/// The bits that either of two ints has.
#[unsafe(no_mangle)]
pub extern "C" fn magbelu_kernel_or_ints(a: &[i32], b: &[i32], out: &mut [i32]) -> u32
    ensures { Makes (AreAlike a.now b.now out.old) (out.new ≡ or_bits Int a.now b.now) out.old out.new result }
{
    where_alike!(are_alike(a, b, out), join_bits::<i32, OrBits>(a, b, out))
}

/// The bits that one of two ints has alone.
#[unsafe(no_mangle)]
pub extern "C" fn magbelu_kernel_xor_ints(a: &[i32], b: &[i32], out: &mut [i32]) -> u32
    ensures { Makes (AreAlike a.now b.now out.old) (out.new ≡ xor_bits Int a.now b.now) out.old out.new result }
{
    where_alike!(are_alike(a, b, out), join_bits::<i32, XorBits>(a, b, out))
}
