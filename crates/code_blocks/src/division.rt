//! The division of polynomials whose coefficients are bits, a byte at a time.
ghost use Rattle.std.specs.Prelude.{◌≡◌, ◌<◌, ◌≤◌, ◌^◌, IfOk, map};
ghost use Rattle.stream_model.specs.Lists.{below};
ghost use Rattle.kind_model.specs.Codes.{divided, remainder};
ghost use Rattle.code_blocks.specs.Divided.{bits_of_byte, entry};

use std::alloc::{AllocError, Global};

/// A register that divides by a polynomial, with a table of what eight bits do to it.
#[derive(Debug, Drop, PartialEq, Eq)]
pub(crate) struct Division {
    bits: u32,
    polynomial: u64,
    table: Vec<u64>,
    ghost least: { 8 ≤ bits },
    ghost most: { bits ≤ 32 },
    ghost small: { polynomial < 2 ^ bits },
    ghost entries: { table.items ≡ map (entry bits polynomial) (below 256) },
}

/// The register behind a bit 0.
fn divided_once(bits: u32, polynomial: u64, register: u64) -> u64
    requires least { 8 ≤ bits }
    requires most { bits ≤ 32 }
    requires small { polynomial < 2 ^ bits }
    requires register { register < 2 ^ bits }
    ensures value { result ≡ divided bits polynomial register 0 }
    ensures less { result < 2 ^ bits }
{
    let moved = (register << 1) & ((1 << bits) - 1);
    if register >> (bits - 1) == 0 {
        moved
    } else {
        moved ^ polynomial
    }
}

/// The register behind eight bits 0, where its eight highest bits are those of `top` and the others 0.
fn entry_of(bits: u32, polynomial: u64, top: u64) -> u64
    requires least { 8 ≤ bits }
    requires most { bits ≤ 32 }
    requires small { polynomial < 2 ^ bits }
    requires top { top < 256 }
    ensures { result ≡ entry bits polynomial top }
{
    let mut register = top << (bits - 8);
    for _step in 0..8_u32 {
        register = divided_once(bits, polynomial, register);
    }
    register
}

impl Division {
    /// The division by a polynomial. It fails only where the allocator refuses the table.
    pub(crate) fn new(alloc: Global, bits: u32, polynomial: u64) -> Result<Division, AllocError>
        requires least { 8 ≤ bits }
        requires most { bits ≤ 32 }
        requires small { polynomial < 2 ^ bits }
        ensures { IfOk result (λ division. (division.bits ≡ bits) × (division.polynomial ≡ polynomial)) }
    {
        let mut table = Vec::with_capacity(alloc, 256)?;
        for top in 0..256 {
            table.push_reserved(entry_of(bits, polynomial, top));
        }
        Ok(Division {
            bits,
            polynomial,
            table,
        })
    }

    /// The register behind the bits of a byte, the highest first.
    #[inline(always)]
    pub(crate) fn behind(&self, register: u64, byte: u8) -> u64
        requires { register < 2 ^ self.now.bits }
        ensures value { result ≡ remainder self.now.bits self.now.polynomial register (bits_of_byte byte) }
        ensures less { result < 2 ^ self.now.bits }
    {
        let top = (register >> (self.bits - 8)) ^ u64::from(byte);
        let moved = (register << 8) & ((1 << self.bits) - 1);
        moved ^ self.table[top as usize]
    }
}
