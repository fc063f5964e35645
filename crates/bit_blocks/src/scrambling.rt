//! What one block with a shift register does otherwise than another.
ghost use Rattle.std.specs.Prelude.{◌≡◌, ◌^◌, ◌<◌, ◌≤◌, ◌-◌, ◌+◌, ◌*◌, ◌%◌, ℕ, length};
ghost use Rattle.items.specs.Items.{numbers_of, spare_of};
ghost use Rattle.stream_model.specs.Meaning.{Meaning, IsLawful};
ghost use Rattle.bit_blocks.specs.Codes.{given_bit, fed_register, IsCode, CanCode, HasCoded};

use crate::code::{Coder, code};
use crate::register::{Register, Taps};
use items::Items;
use std::marker::PhantomData;

/// What a shift register follows: the bit that goes into it behind each byte.
pub trait Feed {
    /// The bit for the lowest bit of the byte, and the sum of the bits of the register that the mask has.
    ghost fed: { ℕ → ℕ → ℕ };

    /// The bit that goes into the register, for the lowest bit of a byte and the sum.
    fn fed(bit: u64, sum: u64) -> u64
        requires bit { bit < 2 }
        requires sum { sum ≤ 32 }
        ensures value { result ≡ fed bit sum }
        ensures bit { result < 2 };
}

/// The kinds of blocks with a shift register.
pub trait Scrambling: Feed + Drop + Sized {
    /// What a block means by its register: the bits, the mask and what it holds at first.
    ghost equation: { ℕ → ℕ → ℕ → Meaning };

    /// Writes what is given for the bytes into an empty `out` with room for it, and answers the register behind them.
    fn code(register: &Register, start: u64, items: &Items, out: &mut Items) -> u64
        requires word { start < 2 ^ register.now.bits }
        requires can { CanCode items.now out.old }
        ensures coded { HasCoded (given_bit register.now.bits register.now.mask)
            (fed_register Self.fed register.now.bits register.now.mask) start items.now out.new result }
        ensures room { spare_of out.old ≤ spare_of out.new + length (numbers_of out.new) }
    {
        code(Shifting::<Self>::new(register), start, items, out)
    }

    /// The equation is this code of bytes, from what the register holds at first on.
    ghost coded: { (bits mask init : ℕ) → 2 ≤ bits
        → IsCode (equation bits mask init) init (λ word. word < 2 ^ bits) (given_bit bits mask)
        (fed_register Self.fed bits mask) };

    /// The laws that the runtime rests on.
    ghost lawful: { (bits mask init : ℕ) → init < 2 ^ bits → IsLawful (equation bits mask init) };
}

/// The steps of a block with a register that follows `F`.
#[derive_where(Clone, Copy)]
pub(crate) struct Shifting<F> {
    taps: Taps,
    feed: PhantomData<F>,
}

impl<F> Shifting<F> {
    /// The steps with this register.
    pub(crate) fn new(register: &Register) -> Shifting<F>
        ensures bits { result.taps.bits ≡ register.now.bits }
        ensures mask { result.taps.mask ≡ register.now.mask }
    {
        Shifting {
            taps: Taps::of(register),
            feed: PhantomData,
        }
    }
}

impl<F: Feed> Coder for Shifting<F> {
    ghost is_word = { λ b word. word < 2 ^ b.taps.bits };

    ghost gives = { λ b. given_bit b.taps.bits b.taps.mask };

    ghost next = { λ b. fed_register F.fed b.taps.bits b.taps.mask };

    fn step(self, word: u64, byte: u8) -> (u8, u64) {
        let bit = u64::from(byte % 2);
        let sum = self.taps.sum(word);
        let given = (bit + sum) % 2;
        (given as u8, self.taps.push(word, F::fed(bit, sum)))
    }
}
