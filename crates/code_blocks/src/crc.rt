//! Checksums of frames.
ghost use Rattle.std.specs.Prelude.{◌≡◌, ◌+◌, ◌<◌, ◌≤◌, ◌^◌, IfOk, IfErr, IfSome, IsNone, OnOk, ◌↔◌, ◌⊎◌, ℕ, length, map, pos, if◌then◌else◌};
ghost use Rattle.std.specs.Ordering.{int_eq};
ghost use Rattle.kind_model.specs.Codes.{IsChecksum, bytes_of, checksum, checksum_byte, in_order, is_checked, with_checksum};
ghost use Rattle.stream_model.specs.Lists.{item};
ghost use Rattle.code_blocks.specs.Divided.{bits_of_byte, bits_by};
ghost use Rattle.code_blocks.specs.Faults.{IsFirstBad, IsRefusal};

use crate::division::Division;
use block_parameters::{ParamFault, Parameter};
use kind_model::{BitOrder, Checksum};
use std::alloc::Global;

/// Frames of `length` bytes, and how their checksums are computed.
#[derive(Debug, Drop, PartialEq, Eq)]
pub struct Crc {
    length: u64,
    rule: Checksum,
    division: Division,
    ghost is: { IsChecksum rule length },
    ghost bits: { division.bits ≡ rule.bits },
    ghost polynomial: { division.polynomial ≡ rule.polynomial },
}

/// The first parameter that the checksum of such a frame may not have.
fn first_bad(length: u64, rule: Checksum) -> Option<Parameter>
    ensures bad { IfSome result (IsFirstBad length rule) }
    ensures good { IsNone result ↔ IsChecksum rule length }
{
    if rule.bits < 8 || 32 < rule.bits {
        return Some(Parameter::Bits);
    }
    let end = 1_u64 << rule.bits;
    if end <= rule.polynomial {
        Some(Parameter::Polynomial)
    } else if end <= rule.init {
        Some(Parameter::Init)
    } else if end <= rule.final_xor {
        Some(Parameter::FinalXor)
    } else if length < 1 || 1_020 < length {
        Some(Parameter::N)
    } else {
        None
    }
}

/// The byte that has the bits of another, the first of these the highest.
#[inline(always)]
fn highest_first(order: BitOrder, byte: u8) -> u8
    ensures { bits_of_byte result ≡ bits_by order byte }
{
    match order {
        BitOrder::MsbFirst => byte,
        BitOrder::LsbFirst => byte.reverse_bits(),
    }
}

/// The number that has the bits of a register in the other order.
fn turned(bits: u32, register: u64) -> u64
    requires { bits ≤ 32 }
    ensures value { result ≡ in_order BitOrder.LsbFirst bits register }
    ensures less { result < 2 ^ bits }
{
    let mut number = 0;
    for k in 0..bits {
        number = 2 * number + (register >> k) % 2;
    }
    number
}

/// The number that has the bits of a register, of which the highest is the first.
fn number_in(order: BitOrder, bits: u32, register: u64) -> u64
    requires bits { bits ≤ 32 }
    requires register { register < 2 ^ bits }
    ensures value { result ≡ in_order order bits register }
    ensures less { result < 2 ^ bits }
{
    match order {
        BitOrder::MsbFirst => register,
        BitOrder::LsbFirst => turned(bits, register),
    }
}

impl Crc {
    /// Frames of 1 to 1,020 bytes with a checksum of 8 to 32 bits, and no more in the polynomial, `init` and
    /// `final_xor`. `BadParameter` names the first that is not so: `bits`, `polynomial`, `init`, `final_xor`, `n`.
    /// `Memory` comes only where the allocator refuses a table of 256 words.
    pub fn new(alloc: Global, length: u64, rule: Checksum) -> Result<Crc, ParamFault>
        ensures length { IfOk result (λ crc. crc.length ≡ length) }
        ensures rule { IfOk result (λ crc. crc.rule ≡ rule) }
        ensures range { OnOk result (IsChecksum rule length) }
        ensures fault { IfErr result (IsRefusal length rule) }
    {
        if let Some(parameter) = first_bad(length, rule) {
            return Err(ParamFault::BadParameter(parameter));
        }
        Ok(Crc {
            length,
            rule,
            division: Division::new(alloc, rule.bits, rule.polynomial)?,
        })
    }

    /// How many bytes a frame has.
    pub(crate) fn length(&self) -> u64
        ensures { result ≡ self.now.length }
    {
        self.length
    }

    /// How many bytes hold a checksum.
    pub(crate) fn bytes(&self) -> u64
        ensures { result ≡ bytes_of self.now.rule }
    {
        u64::from((self.rule.bits + 7) / 8)
    }

    // The checksum of a frame.
    fn checksum(&self, frame: &[u8]) -> u64
        requires { length frame.now < 2 ^ 60 }
        ensures { result ≡ checksum self.now.rule (map pos frame.now) 0 (length frame.now) }
    {
        let mut register = self.rule.init;
        for byte in frame {
            register = self
                .division
                .behind(register, highest_first(self.rule.order, *byte));
        }
        number_in(self.rule.order, self.rule.bits, register) ^ self.rule.final_xor
    }

    // Byte `j` of a checksum.
    fn byte(&self, sum: u64, j: u64) -> u8
        requires { j < bytes_of self.now.rule }
        ensures { pos result ≡ checksum_byte self.now.rule sum j }
    {
        let place = match self.rule.order {
            BitOrder::MsbFirst => self.bytes() - 1 - j,
            BitOrder::LsbFirst => j,
        };
        (sum >> (8 * place) & 255) as u8
    }

    /// Writes a frame and its checksum over the items of `out` from item `at` on.
    pub(crate) fn append(&self, frame: &[u8], out: &mut [u8], at: usize)
        requires taken { length frame.now ≡ self.now.length }
        requires given { at + self.now.length + bytes_of self.now.rule ≤ length out.old }
        ensures len { length out.new ≡ length out.old }
        ensures stays { (i : ℕ) → (i < at) ⊎ (at + self.now.length + bytes_of self.now.rule ≤ i)
            → item (map pos out.new) i ≡ item (map pos out.old) i }
        ensures written { (r : ℕ) → r < self.now.length + bytes_of self.now.rule
            → item (map pos out.new) (at + r) ≡ with_checksum self.now.rule self.now.length (map pos frame.now) 0 r }
    {
        let n = frame.len();
        let bytes = self.bytes() as usize;
        let sum = self.checksum(frame);
        for r in 0..n {
            out[at + r] = frame[r];
        }
        for j in 0..bytes {
            out[at + n + j] = self.byte(sum, j as u64);
        }
    }

    // Whether byte `j` behind a frame is that of a checksum.
    fn has_byte(&self, frame: &[u8], sum: u64, j: usize) -> bool
        requires frame { length frame.now ≡ self.now.length + bytes_of self.now.rule }
        requires byte { j < bytes_of self.now.rule }
        ensures { result ≡ int_eq (item (map pos frame.now) (0 + self.now.length + j))
            (checksum_byte self.now.rule sum j) }
    {
        frame[self.length as usize + j] == self.byte(sum, j as u64)
    }

    /// Whether the bytes behind a frame are its checksum.
    pub(crate) fn is_right(&self, frame: &[u8]) -> bool
        requires { length frame.now ≡ self.now.length + bytes_of self.now.rule }
        ensures { (if result then 1 else 0) ≡ is_checked self.now.rule self.now.length (map pos frame.now) 0 }
    {
        let n = self.length as usize;
        let sum = self.checksum(&frame[..n]);
        for j in 0..frame.len() - n {
            if !self.has_byte(frame, sum, j) {
                return false;
            }
        }
        true
    }
}
