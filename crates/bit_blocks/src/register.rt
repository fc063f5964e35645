//! Shift registers.
ghost use Rattle.std.specs.Prelude.{◌≡◌, ◌^◌, ◌<◌, ◌≤◌, ◌+◌, ◌*◌, ◌%◌, ◌↔◌, ◌⊎◌, IsOk, IfOk, IsErrOf};
ghost use Rattle.kind_model.specs.Bits.{masked, places_of};
ghost use Rattle.bit_blocks.specs.Jumps.{stepped};
ghost use Rattle.bit_blocks.specs.Registers.{IsRegister};

use block_parameters::{ParamFault, Parameter};

/// No register has more bits.
pub(crate) const MOST_BITS: usize = 32;

/// A shift register: how many bits it has, a mask of those that are summed, and what it holds at first. The lowest bit
/// of both is the newest in the register; GNU Radio's mask and seed have the bits in reverse order, and its length is
/// one less.
#[derive(Debug, Drop, PartialEq, Eq)]
pub struct Register {
    /// How many bits: 2 to 32.
    pub bits: u32,
    /// Which of them are summed.
    pub mask: u64,
    /// What they are at first.
    pub init: u64,
    ghost is: { IsRegister bits mask init },
}

impl Register {
    /// The register of 2 to 32 bits, with a mask of 1 to `2 ^ bits - 1` and an init of 0 to `2 ^ bits - 1`.
    /// `BadParameter` names the first that is not so, in this order.
    pub fn new(bits: u32, mask: u64, init: u64) -> Result<Register, ParamFault>
        ensures bits { IfOk result (λ register. register.bits ≡ bits) }
        ensures mask { IfOk result (λ register. register.mask ≡ mask) }
        ensures init { IfOk result (λ register. register.init ≡ init) }
        ensures range { IsOk result ↔ IsRegister bits mask init }
        ensures bad_bits { IsErrOf result (ParamFault.BadParameter Parameter.Bits) ↔ ((bits < 2) ⊎ (32 < bits)) }
        ensures bad_mask { IsErrOf result (ParamFault.BadParameter Parameter.Mask)
            ↔ ((2 ≤ bits) × (bits ≤ 32) × ((mask < 1) ⊎ (2 ^ bits ≤ mask))) }
        ensures bad_init { IsErrOf result (ParamFault.BadParameter Parameter.Init)
            ↔ ((2 ≤ bits) × (bits ≤ 32) × (1 ≤ mask) × (mask < 2 ^ bits) × (2 ^ bits ≤ init)) }
    {
        if bits < 2 || 32 < bits {
            return Err(ParamFault::BadParameter(Parameter::Bits));
        }
        let end = 1 << bits;
        if mask < 1 || end <= mask {
            return Err(ParamFault::BadParameter(Parameter::Mask));
        }
        if end <= init {
            return Err(ParamFault::BadParameter(Parameter::Init));
        }
        Ok(Register { bits, mask, init })
    }
}

/// What a step reads of a register.
#[derive(Clone, Copy)]
pub(crate) struct Taps {
    pub(crate) bits: u32,
    pub(crate) mask: u64,
    ghost few: { bits ≤ 32 },
    ghost small: { mask < 2 ^ bits },
}

impl Taps {
    /// Those of a register.
    pub(crate) fn of(register: &Register) -> Taps
        ensures bits { result.bits ≡ register.now.bits }
        ensures mask { result.mask ≡ register.now.mask }
    {
        Taps {
            bits: register.bits,
            mask: register.mask,
        }
    }

    /// The sum of the bits of a word that the mask has.
    pub(crate) fn sum(self, word: u64) -> u64
        ensures value { result ≡ masked self.bits self.mask (places_of self.bits word) }
        ensures small { result ≤ 32 }
    {
        u64::from((self.mask & word).count_ones())
    }

    /// The word with a new bit in front, without its oldest bit.
    pub(crate) fn push(self, word: u64, bit: u64) -> u64
        requires word { word < 2 ^ self.bits }
        requires bit { bit < 2 }
        ensures value { result ≡ (2 * word + bit) % 2 ^ self.bits }
        ensures word { result < 2 ^ self.bits }
    {
        (2 * word + bit) % (1 << self.bits)
    }

    /// The word after a step in which the sum moves in, modulo 2.
    pub(crate) fn step(self, word: u64) -> u64
        requires { word < 2 ^ 32 }
        ensures { result ≡ stepped self.bits self.mask word }
    {
        (2 * word + self.sum(word) % 2) % (1 << self.bits)
    }
}
