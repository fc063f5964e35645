//! Blocks with one stream and a number.
ghost use Rattle.std.specs.Prelude.{◌≡◌, ◌≤◌, ◌↔◌, IsOk, IfOk, IfErr};

use crate::counting::Counting;
use block_parameters::{ParamFault, Parameter};
use block_trait::{Batch, Block, ByPace, Held, Shape, Single, work_single};
use items::{ItemType, Items};
use std::marker::PhantomData;

/// A block of one stream with a number `n`. `C` says what it is for.
#[derive(Drop)]
#[derive_where(Debug, PartialEq, Eq)]
pub struct Counted<C: Counting> {
    pub(crate) item: ItemType,
    pub(crate) n: u64,
    #[derive_where(skip)]
    pub(crate) kind: PhantomData<C>,
    ghost least: { C.LEAST ≤ n },
    ghost most: { n ≤ C.MOST },
}

impl<C: Counting> Counted<C> {
    ghost use Rattle.rate_blocks.specs.Kinds.{counted_of};

    /// The block with this `n`; `BadParameter` outside `C::LEAST` to `C::MOST`.
    pub fn new(item: ItemType, n: u64) -> Result<Counted<C>, ParamFault>
        ensures meaning { IfOk result (λ block. counted_of C.equation block ≡ C.equation item n) }
        ensures range { IsOk result ↔ ((C.LEAST ≤ n) × (n ≤ C.MOST)) }
        ensures err { IfErr result (λ fault. fault ≡ ParamFault.BadParameter Parameter.N) }
    {
        if n < C::LEAST || C::MOST < n {
            return Err(ParamFault::BadParameter(Parameter::N));
        }
        Ok(Counted {
            item,
            n,
            kind: PhantomData,
        })
    }
}

impl<C: Counting> Single for Counted<C> {
    ghost use Rattle.rate_blocks.specs.Counted.{plain-single};
    ghost use Rattle.rate_blocks.specs.Kinds.{counted_of};

    ghost equation = { counted_of C.equation };

    fn fill(&self, batch: &Batch<'_>, out: &mut Items) -> u64 {
        C::fill(self.item, self.n, batch, out);
        0
    }

    ghost single = { λ b. plain-single (C.plain b.item b.n b.least) };
}

impl<C: Counting> Block for Counted<C> {
    ghost use Rattle.block_trait.specs.SameItem.{same_sized};
    ghost use Rattle.rate_blocks.specs.Kinds.{counted_of};

    ghost meaning = { counted_of C.equation };

    type Places = ByPace;

    fn shape(&self, _input: usize) -> Shape<'_> {
        C::shape(self.item, self.n)
    }

    fn work(
        &self,
        state: u64,
        first: u64,
        count: u64,
        windows: &[Items],
        held: &[Held],
        out: &mut [Items],
    ) -> u64 {
        work_single(self, state, first, count, windows, held, out)
    }

    ghost lawful = { λ b. C.lawful b.item b.n b.least b.most };

    ghost same = { λ a b. same_sized C.equation a.item b.item a.n b.n };
}
