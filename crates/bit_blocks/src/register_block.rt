//! Blocks that give each byte's lowest bit plus bits of a shift register.
ghost use Rattle.std.specs.Prelude.{◌≡◌};

use crate::register::Register;
use crate::scrambling::Scrambling;
use block_trait::{Batch, Block, ByPace, Held, Shape, Single, work_single};
use items::{ItemType, Items};
use std::marker::PhantomData;

/// A block that gives the lowest bit of each byte plus the bits of a shift register that a mask has, modulo 2. `S` says
/// what the register follows.
#[derive(Drop)]
#[derive_where(Debug, PartialEq, Eq)]
pub struct RegisterBlock<S> {
    pub(crate) register: Register,
    #[derive_where(skip)]
    kind: PhantomData<S>,
}

impl<S: Scrambling> RegisterBlock<S> {
    ghost use Rattle.bit_blocks.specs.Kinds.{register_block_of};

    /// The block with this register.
    pub fn new(register: Register) -> RegisterBlock<S>
        ensures { register_block_of S.equation result ≡ S.equation register.bits register.mask register.init }
    {
        RegisterBlock {
            register,
            kind: PhantomData,
        }
    }
}

impl<S: Scrambling> Single for RegisterBlock<S> {
    ghost use Rattle.bit_blocks.specs.Codes.{code-single};
    ghost use Rattle.bit_blocks.specs.Kinds.{register_block_of};

    ghost equation = { register_block_of S.equation };

    fn fill(&self, batch: &Batch<'_>, out: &mut Items) -> u64 {
        S::code(&self.register, batch.state, batch.window, out)
    }

    ghost single = { λ b. code-single (S.coded b.register.bits b.register.mask b.register.init b.register.is.bits_least) };
}

impl<S: Scrambling> Block for RegisterBlock<S> {
    ghost use Rattle.bit_blocks.specs.Kinds.{register_block_of, same_register};

    ghost meaning = { register_block_of S.equation };

    type Places = ByPace;

    fn shape(&self, _input: usize) -> Shape<'_> {
        Shape {
            start: self.register.init,
            ..Shape::sync(ItemType::Byte, ItemType::Byte)
        }
    }

    fn work(
        &self,
        state: u64,
        first: u64,
        count: u64,
        windows: &[Items],
        held: &[Held],
        out: &mut [Items],
    ) -> u64 {
        work_single(self, state, first, count, windows, held, out)
    }

    ghost lawful = { λ b. S.lawful b.register.bits b.register.mask b.register.init b.register.is.init_most };

    ghost same = { λ a b. same_register S.equation a.register b.register };
}
